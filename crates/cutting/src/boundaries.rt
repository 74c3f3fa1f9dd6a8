// Boundaries: groups at which tables are cut. Whether a list of them is good, and where a sorted table is cut for each.
ghost use Rattle.std.specs.Prelude.{◌≡◌, ◌≤◌};
ghost use Rattle.frames.specs.Cells.{row_from, rows_of, rows_in};
ghost use Rattle.order.specs.options.Options.{options_of};
ghost use Rattle.tables.specs.Lay.{flat, lay_cells};
ghost use Rattle.cutting.specs.boundaries.Boundaries.{cut_at, places, ascending, bad_boundaries};
ghost use Rattle.cutting.specs.boundaries.Requires.{GroupsIn, CutIn, PlacesIn};

use frames::RowSlice;
use order::options::Rules;
use rows::compare::cmp_by;
use rows::nulls::any_null;
use tables::put_cell;

// The most boundaries of one call.
const MOST: usize = 16;

// Whether each of n boundaries is less than the next one.
fn is_ascending(rows: RowSlice<'_>, rules: Rules<'_>) -> bool
    requires { GroupsIn (options_of rules) rows.count rows.values.now rows.marks.now }
    ensures { result ≡ ascending (options_of rules.entry) (rows_of rules.entry.terms.by rows.entry.count rows.entry.values.now rows.entry.marks.now) }
{
    let w = rules.terms.by;
    for i in 1..rows.count {
        if !cmp_by(rows, (i - 1) * w, rows, i * w, rules).is_lt() {
            return false;
        }
    }
    true
}

// Whether a list of n boundaries is refused: too many, any without by-columns, a null, or not strictly ascending.
#[inline(always)]
pub fn bad_boundaries(rows: RowSlice<'_>, rules: Rules<'_>) -> bool
    requires { GroupsIn (options_of rules) rows.count rows.values.now rows.marks.now }
    ensures { result ≡ bad_boundaries (options_of rules.entry) (rows_of rules.entry.terms.by rows.entry.count rows.entry.values.now rows.entry.marks.now) }
{
    if MOST < rows.count {
        return true;
    }
    if rules.terms.by == 0 {
        return 0 < rows.count;
    }
    if any_null(rows.marks) {
        return true;
    }
    !is_ascending(rows, rules)
}

// The first of n sorted rows, each w wide, whose group is not less than that of the boundary at p; n if there is none.
pub fn cut_place(rows: RowSlice<'_>, bounds: RowSlice<'_>, p: usize, rules: Rules<'_>) -> usize
    requires { CutIn (options_of rules) rows.width rows.count rows.values.now rows.marks.now p bounds.values.now bounds.marks.now }
    ensures { result ≡ cut_at (options_of rules.entry) (row_from rules.entry.terms.by p bounds.entry.values.now bounds.entry.marks.now) (rows_in rows.entry) }
{
    let mut low = 0;
    let mut high = rows.count;
    // A while: each turn halves what is left.
    while low < high {
        let middle = low + (high - low) / 2;
        if cmp_by(rows, middle * rows.width, bounds, p, rules).is_lt() {
            low = middle + 1;
        } else {
            high = middle;
        }
    }
    low
}

// The places of the cuts for k boundaries, as the cells of a table of one column.
pub fn put_places(rows: RowSlice<'_>, bounds: RowSlice<'_>, rules: Rules<'_>, out: &mut [i64])
    requires { PlacesIn (options_of rules) rows.width rows.count rows.values.now rows.marks.now bounds.count bounds.values.now bounds.marks.now out.old }
    ensures { out.new ≡ lay_cells bounds.entry.count 0 (flat (places (options_of rules.entry) (rows_in rows.entry) (rows_of rules.entry.terms.by bounds.entry.count bounds.entry.values.now bounds.entry.marks.now))) out.old }
{
    for i in 0..bounds.count {
        let place = cut_place(rows, bounds, i * rules.terms.by, rules);
        put_cell(out, bounds.count, i, place as i64, 1);
    }
}
