// Two sorted tables joined pair by pair at boundaries, by their rows. The answer of the pairs is that of the uncut tables, so these are matched where they lie.
ghost use Rattle.std.specs.Prelude.{◌≡◌};
ghost use Rattle.frames.specs.Cells.{rows_of};
ghost use Rattle.order.specs.options.Options.{options_of};
ghost use Rattle.cutting.specs.cutpairs.Driver.{pairs_judged, PairsContract};
ghost use Rattle.cutting.specs.cutroom.Requires.{pair_in};
ghost use Rattle.cutting.specs.cutrows.Requires.{AllIn};

use crate::boundaries::bad_boundaries;
use crate::cutroom::any_short;
use frames::RowSlice;
use frames::refusals::Refusal;
use groups::neighbours::is_sorted;
use matchframe::sortedrows::match_sorted;
use order::options::{Rules, answer_columns};
use rows::framerule::has_room;

// The refusals of nl left rows and nr right rows, and of k boundaries: 14, 18, 6.
fn judge_pairs(
    left: RowSlice<'_>,
    right: RowSlice<'_>,
    bounds: RowSlice<'_>,
    l: usize,
    r: usize,
    out: usize,
    rules: Rules<'_>,
) -> Result<usize, Refusal>
    requires { AllIn (options_of rules) left.width left.count left.values.now left.marks.now right.width right.count right.values.now right.marks.now bounds.count bounds.values.now bounds.marks.now }
    ensures { result ≡ pairs_judged (options_of rules.entry) (pair_in left.entry.width left.entry.count left.entry.values.now left.entry.marks.now right.entry.width right.entry.count right.entry.values.now right.entry.marks.now) (rows_of rules.entry.terms.by bounds.entry.count bounds.entry.values.now bounds.entry.marks.now) l r out }
{
    if !is_sorted(left, rules) {
        return Err(Refusal::Unsorted);
    }
    if !is_sorted(right, rules) {
        return Err(Refusal::Unsorted);
    }
    if bad_boundaries(bounds, rules) {
        return Err(Refusal::BadBoundaries);
    }
    if !has_room(left.count, answer_columns(rules.terms), out) {
        return Err(Refusal::NoRoom);
    }
    if any_short(left, right, bounds, l, r, rules) {
        return Err(Refusal::NoRoom);
    }
    Ok(left.count)
}

// Their answer; refused, no word is altered.
pub fn join_rows(
    left: RowSlice<'_>,
    right: RowSlice<'_>,
    bounds: RowSlice<'_>,
    l: usize,
    r: usize,
    rules: Rules<'_>,
    out: &mut [i64],
) -> Result<usize, Refusal>
    requires { AllIn (options_of rules) left.width left.count left.values.now left.marks.now right.width right.count right.values.now right.marks.now bounds.count bounds.values.now bounds.marks.now }
    ensures { PairsContract (options_of rules.entry) (pair_in left.entry.width left.entry.count left.entry.values.now left.entry.marks.now right.entry.width right.entry.count right.entry.values.now right.entry.marks.now) (rows_of rules.entry.terms.by bounds.entry.count bounds.entry.values.now bounds.entry.marks.now) l r out.old result out.new }
{
    let n = out.len();
    let written = judge_pairs(left, right, bounds, l, r, n, rules)?;
    match_sorted(left, right, 0, rules, out);
    Ok(written)
}
