// What a turn works on: the join without its options, which no turn moves, and its state, which none reads or moves; what the turn has and needs, and what it writes and leaves.
ghost use Rattle.std.specs.Prelude.{◌≡◌, not, ◌&&◌, ◌+◌, ◌-◌, ◌^◌, ◌≤◌, ◌<◌};
ghost use Rattle.frames.specs.Cells.{rows_of, rows_in};
ghost use Rattle.frames.specs.Frame.{frame_words};
ghost use Rattle.order.specs.options.Options.{options_of};
ghost use Rattle.searching.specs.Reach.{need_more};
ghost use Rattle.node.specs.turnparts.Part.{room_answer, order_answer, left_at, failed_part, Written, Counts, TurnIn, WriteIn};

use buffer::pruning::need_more;
use frames::RowSlice;
use frames::outcomes::Turn;
use frames::refusals::Refusal;
use matchframe::turnanswer::answer_turn;
use matchframe::turnrows::{bad_left, bad_right, remembered, remembered_left};
use order::Row;
use order::options::{Rules, answer_columns};

// A join without its options, which come beside it, and its state.
#[derive(Clone, Copy)]
pub struct Part {
    pub base: usize,
    pub held: usize,
    pub pruned: usize,
    pub queue_start: usize,
    pub queue_words: usize,
    pub right_ended: bool,
    pub failed: bool,
    pub sequence: u64,
    pub last_left: Row,
    pub last_right: Row,
}

// The last sequence.
const LAST_SEQUENCE: u64 = 18446744073709551614;

// Whether a turn with these n left rows waits for right rows: it never does once right has ended.
fn wants_right(j: Part, rules: Rules<'_>, left: RowSlice<'_>, right: RowSlice<'_>) -> bool
    requires { TurnIn (options_of rules) j left.width right.width left.count left.values.now left.marks.now right.values.now right.marks.now }
    ensures { result ≡ (not j.right_ended && need_more (options_of rules.entry) (rows_in left.entry) (rows_of right.entry.width j.held right.entry.values.now right.entry.marks.now)) }
{
    if j.right_ended {
        return false;
    }
    need_more(
        left,
        RowSlice {
            count: j.held,
            ..right
        },
        rules,
    )
}

// Whether a turn with these n left rows has what it needs: right rows, room in the output, a sequence.
pub fn judge_room(
    j: Part,
    rules: Rules<'_>,
    left: RowSlice<'_>,
    right: RowSlice<'_>,
    room: usize,
) -> Result<Turn, Refusal>
    requires { TurnIn (options_of rules) j left.width right.width left.count left.values.now left.marks.now right.values.now right.marks.now }
    ensures { result ≡ room_answer (options_of rules.entry) j (rows_in left.entry) (rows_of right.entry.width j.held right.entry.values.now right.entry.marks.now) room }
{
    if wants_right(j, rules, left, right) {
        return Ok(Turn::WantsRight);
    }
    if room < 2 + 2 * (left.count * answer_columns(rules.terms)) {
        return Err(Refusal::NoRoom);
    }
    if j.sequence == LAST_SEQUENCE {
        return Err(Refusal::UsedUp);
    }
    Ok(Turn::Wrote(j.sequence))
}

// Whether the order of the rows lets the turn go on; s is the split of the prune by the last row.
pub fn judge_order(
    j: Part,
    rules: Rules<'_>,
    left: RowSlice<'_>,
    right: RowSlice<'_>,
    s: usize,
) -> Result<Turn, Refusal>
    requires { TurnIn (options_of rules) j left.width right.width left.count left.values.now left.marks.now right.values.now right.marks.now × (s ≤ j.held) }
    ensures { result ≡ order_answer (options_of rules.entry) j (rows_in left.entry) (rows_of right.entry.width j.held right.entry.values.now right.entry.marks.now) s }
{
    if bad_left(j.last_left, left, rules) {
        return Err(Refusal::LeftOrder);
    }
    if bad_right(
        j.last_right,
        left.count,
        s,
        RowSlice {
            count: j.held,
            ..right
        },
        rules,
    ) {
        return Err(Refusal::RightOrder);
    }
    Ok(Turn::Wrote(j.sequence))
}

// The join without d held rows and without a waiting frame of k words, at the next sequence, with the rows that are remembered now.
fn leave(mut j: Part, d: usize, k: usize, last_left: Row, last_right: Row) -> Part
    requires { Counts j k × (d ≤ j.held) × (j.sequence + 2 < 2 ^ 64) }
    ensures { result ≡ left_at j d k last_left last_right }
{
    j.base += d;
    j.held -= d;
    j.pruned += d;
    j.queue_start += k;
    j.queue_words -= k;
    j.sequence += 2;
    j.last_left = last_left;
    j.last_right = last_right;
    j
}

// The join, failed.
pub fn fail(mut j: Part) -> Part
    ensures { result ≡ failed_part j }
{
    j.failed = true;
    j
}

// Writes the answer of n left rows over the kept rows, from which `last` are then dropped; `first` were dropped before.
pub fn write_turn(
    j: Part,
    rules: Rules<'_>,
    left: RowSlice<'_>,
    kept: RowSlice<'_>,
    first: usize,
    last: usize,
    out: &mut [i64],
) -> Part
    requires { WriteIn (options_of rules) j left.width kept.width left.count left.values.now left.marks.now first last kept.values.now kept.marks.now out.old }
    ensures { Written (options_of rules.entry) j (rows_in left.entry) (rows_of kept.entry.width (j.held - first) kept.entry.values.now kept.entry.marks.now) first last (frame_words left.entry.count left.entry.width) out.old result out.new }
{
    let count = j.held - first;
    let number = j.pruned + first;
    answer_turn(left, RowSlice { count, ..kept }, number, rules, out);
    let l = remembered_left(j.last_left, left, rules.terms);
    let r = remembered(
        j.last_right,
        RowSlice {
            count: last,
            ..kept
        },
        rules.terms,
    );
    leave(j, first + last, 2 + 2 * (left.count * left.width), l, r)
}
