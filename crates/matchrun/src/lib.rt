// Matching a run of left rows against a right run: candidates, the scan, the walk.
#![tactic(auto)]

pub mod advance;
pub mod approach;
pub mod candidates;
pub mod choices;
pub mod cursor;
pub mod fits;
pub mod look;
pub mod nearwalk;
pub mod scan;
pub mod walk;

ghost use Rattle.std.specs.Prelude.{◌≡◌, ◌&&◌, map, ◌+◌, ◌-◌, ◌<◌, ◌≤◌, leb};
ghost use Rattle.order.specs.options.Options.{without_list};
ghost use Rattle.matching.specs.Match.{match_in};
ghost use Rattle.matching.specs.Stretches.{between, lay};
ghost use Rattle.matching.specs.Loops.{RunRoom};
ghost use Rattle.matching.specs.Moves.{WalkRoom, walk_moves};
ghost use Rattle.matchrun.specs.walk.Keyed.{KeysRoom, Walked};

use crate::candidates::candidates;
use crate::choices::{put, put_nothing};
use crate::cursor::{first_key, keys_sorted};
use crate::nearwalk::nearest;
use crate::scan::match_row;
use crate::walk::{backward, forward};
use frames::RowSlice;
use order::options::{Strategy, Terms, strategy_of};

// Left rows from..to, each matched by a scan over right rows at..end, into an answer of m cells.
pub fn scan_run(
    left: RowSlice<'_>,
    m: usize,
    from: usize,
    to: usize,
    right: RowSlice<'_>,
    at: usize,
    end: usize,
    number: usize,
    o: Terms,
    out: &mut [i64],
)
    requires { RunRoom (without_list o) left.width m left.values.now left.marks.now from to right.width right.values.now right.marks.now at end number out.old }
    ensures { out.new ≡ lay m from (map (match_in (without_list o) (number + at) (between right.entry.width at end right.entry.values.now right.entry.marks.now)) (between left.entry.width from to left.entry.values.now left.entry.marks.now)) out.old }
{
    for i in from..to {
        let choice = match_row(left, i * left.width, right, at, end, number, o);
        put(out, m, i, choice);
    }
}

// A walk by strategy, each headed by the sentence of the join_asof documentation.
fn walk_keys(
    left: RowSlice<'_>,
    m: usize,
    from: usize,
    to: usize,
    right: RowSlice<'_>,
    at: usize,
    end: usize,
    number: usize,
    o: Terms,
    out: &mut [i64],
) -> usize
    requires { KeysRoom (without_list o) left.width m left.values.now from to right.width right.values.now at end number out.old × (at < end) }
    ensures { Walked (without_list o) left.entry.width m left.entry.values.now from to right.entry.width right.entry.values.now at end number out.old result out.new }
{
    let s = strategy_of(o);
    // A match: each strategy has its own arm in the definition too.
    match s {
        // Backward "selects the last row in the right DataFrame whose 'on' key is less than or
        // equal to the left's key."
        Strategy::Backward => backward(left, m, from, to, right, at, end, number, o, out),
        // Forward "selects the first row in the right DataFrame whose 'on' key is greater than or
        // equal to the left's key."
        Strategy::Forward => forward(left, m, from, to, right, at, end, number, o, out),
        // Nearest "selects the last row in the right DataFrame whose value is nearest to the left's
        // key."
        Strategy::Nearest => nearest(left, m, from, to, right, at, end, number, o, out),
    }
}

// Left rows from..to, each matched at the right cursor, which walks right rows at..end, into an answer of m cells. How many moves the cursors made: each takes one of them one row forward.
pub fn walk_run(
    left: RowSlice<'_>,
    m: usize,
    from: usize,
    to: usize,
    right: RowSlice<'_>,
    at: usize,
    end: usize,
    number: usize,
    o: Terms,
    out: &mut [i64],
) -> usize
    requires { WalkRoom (without_list o) left.width m left.values.now left.marks.now from to right.width right.values.now right.marks.now at end number out.old }
    ensures result_value { let lefts = between left.entry.width from to left.entry.values.now left.entry.marks.now in
        let rights = between right.entry.width at end right.entry.values.now right.entry.marks.now in
        result ≡ walk_moves (without_list o) lefts rights }
    ensures out_after { out.new ≡ lay m from (map (match_in (without_list o) (number + at) (between right.entry.width at end right.entry.values.now right.entry.marks.now)) (between left.entry.width from to left.entry.values.now left.entry.marks.now)) out.old }
{
    let start = first_key(right.marks, at, end, right.width, o);
    if start == end {
        put_nothing(out, m, from, to);
        return (to - from) + (end - at);
    }
    let first = first_key(left.marks, from, to, left.width, o);
    put_nothing(out, m, from, first);
    let moves = walk_keys(left, m, first, to, right, start, end, number, o, out);
    (first - from) + (start - at) + moves
}

// As many right rows as one left row looks at one by one: with more, the candidates are found sooner.
const FEW: usize = 8;

// Whether a run is one left row over few right rows: a scan is the shortest way then. It is asked where the run is known, since one more call costs as much as the scan.
pub fn is_short(from: usize, to: usize, at: usize, end: usize) -> bool
    requires { (from ≤ to) × (at ≤ end) }
    ensures { result ≡ (leb (to - from) 1 && leb (end - at) 8) }
{
    if to - from <= 1 {
        return end - at <= FEW;
    }
    false
}

// Left rows from..to, each matched over right rows at..end, into an answer of m cells. Where they
// are sorted by key, the right run is cut to its candidates first, and walked where those are
// sorted too; else it is scanned. A caller scans a run of one left row over few right rows though
// both are sorted (`is_short`). In these two cases the code does less work than the request
// describes, which walks every two sorted runs and scans the whole right run where one is not
// sorted. Nothing that is written differs: the contract is the same for all ways. The bound on the
// moves is of the two cursors of a walk, not of the passes that look for candidates or test
// whether a run is sorted.
pub fn match_run(
    left: RowSlice<'_>,
    m: usize,
    from: usize,
    to: usize,
    right: RowSlice<'_>,
    at: usize,
    end: usize,
    number: usize,
    o: Terms,
    out: &mut [i64],
)
    requires { RunRoom (without_list o) left.width m left.values.now left.marks.now from to right.width right.values.now right.marks.now at end number out.old }
    ensures { out.new ≡ lay m from (map (match_in (without_list o) (number + at) (between right.entry.width at end right.entry.values.now right.entry.marks.now)) (between left.entry.width from to left.entry.values.now left.entry.marks.now)) out.old }
{
    if !keys_sorted(left, from, to, o) {
        scan_run(left, m, from, to, right, at, end, number, o, out);
        return;
    }
    let part = candidates(left, from, to, right, at, end, o);
    let lo = part.from;
    let hi = part.to;
    if keys_sorted(right, lo, hi, o) {
        let _moved = walk_run(left, m, from, to, right, lo, hi, number, o, out);
    } else {
        scan_run(left, m, from, to, right, lo, hi, number, o, out);
    }
}
