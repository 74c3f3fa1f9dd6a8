// A turn over the frame at the front of the queue. Inside a turn the answer Wrote is that of one that goes on.
ghost use Rattle.std.specs.Prelude.{◌≡◌, length};
ghost use Rattle.frames.specs.declared.outcomes.Turn.TheVariants.{Wrote};
ghost use Rattle.frames.specs.Cells.{rows_of, rows_in};
ghost use Rattle.frames.specs.Frame.{frame_rows, frame_words};
ghost use Rattle.order.specs.options.Options.{columns, right_columns, options_of};
ghost use Rattle.buffer.specs.area.Area.{held_rows};
ghost use Rattle.node.specs.turnparts.Part.{room_answer, TurnIn};
ghost use Rattle.node.specs.turnfront.Turns.{RowsTurned, FrameIn};

use crate::turnparts::{Part, fail, judge_order, judge_room, write_turn};
use buffer::area::{held_marks, held_values};
use frames::RowSlice;
use frames::outcomes::{Turn, goes_on};
use frames::refusals::Refusal;
use matchframe::turnrows::{first_prune, from_row, last_prune};
use order::options::{Rules, left_columns, right_columns};
use rows::framerule::row_count;

// What a turn answers, and what it leaves of its part of the join, which a refused turn leaves too.
#[derive(Clone, Copy)]
pub struct TurnedPart {
    pub answer: Result<Turn, Refusal>,
    pub part: Part,
}

// What a turn that does not write hands back.
fn unturned(answer: Result<Turn, Refusal>, j: Part) -> TurnedPart
    ensures { result ≡ record { answer = answer; part = j } }
{
    TurnedPart { answer, part: j }
}

// A turn that has what it needs: its prunes, its order, its answer. With the check on, the split of the prune by the last row is checked.
fn turn_pruned(
    j: Part,
    rules: Rules<'_>,
    left: RowSlice<'_>,
    right: RowSlice<'_>,
    out: &mut [i64],
) -> TurnedPart
    requires { TurnIn (options_of rules) j left.width right.width left.count left.values.now left.marks.now right.values.now right.marks.now × (room_answer (options_of rules) j (rows_in left) (rows_of right.width j.held right.values.now right.marks.now) (length out.old) ≡ Ok (Wrote j.sequence)) }
    ensures { RowsTurned (options_of rules.entry) j (rows_in left.entry) (rows_of right.entry.width j.held right.entry.values.now right.entry.marks.now) (frame_words left.entry.count left.entry.width) out.old result out.new }
{
    let first = first_prune(
        left,
        RowSlice {
            count: j.held,
            ..right
        },
        rules,
    );
    let kv = from_row(right.values, first, right.width);
    let km = from_row(right.marks, first, right.width);
    let last = last_prune(
        left,
        RowSlice {
            values: kv,
            marks: km,
            count: j.held - first,
            width: right.width,
        },
        rules,
    );
    let order = judge_order(j, rules, left, right, last);
    if !goes_on(order) {
        return unturned(order, fail(j));
    }
    TurnedPart {
        answer: order,
        part: write_turn(
            j,
            rules,
            left,
            RowSlice {
                values: kv,
                marks: km,
                count: j.held - first,
                width: right.width,
            },
            first,
            last,
            out,
        ),
    }
}

// A turn over n left rows and the held rows.
fn turn_rows(
    j: Part,
    rules: Rules<'_>,
    left: RowSlice<'_>,
    right: RowSlice<'_>,
    out: &mut [i64],
) -> TurnedPart
    requires { TurnIn (options_of rules) j left.width right.width left.count left.values.now left.marks.now right.values.now right.marks.now }
    ensures { RowsTurned (options_of rules.entry) j (rows_in left.entry) (rows_of right.entry.width j.held right.entry.values.now right.entry.marks.now) (frame_words left.entry.count left.entry.width) out.old result out.new }
{
    let room = judge_room(j, rules, left, right, out.len());
    if !goes_on(room) {
        return unturned(room, j);
    }
    turn_pruned(j, rules, left, right, out)
}

// A turn over the frame at the front of the queue.
pub fn turn_frame(
    j: Part,
    rules: Rules<'_>,
    frame: &[i64],
    right: &[i64],
    out: &mut [i64],
) -> TurnedPart
    requires { FrameIn (options_of rules) j frame.now right.now }
    ensures { RowsTurned (options_of rules.entry) j (frame_rows (columns (options_of rules.entry)) frame.now) (held_rows (right_columns (options_of rules.entry)) j.base j.held right.now) (length frame.now) out.old result out.new }
{
    let c = left_columns(rules.terms);
    let w = right_columns(rules.terms);
    let n = row_count(frame);
    let e = 2 + n * c;
    let rv = held_values(right, j.base, w);
    let rm = held_marks(right, j.base, w);
    turn_rows(
        j,
        rules,
        RowSlice {
            values: &frame[2..e],
            marks: &frame[e..],
            count: n,
            width: c,
        },
        RowSlice {
            values: rv,
            marks: rm,
            count: j.held,
            width: w,
        },
        out,
    )
}
