// The held rows narrowed to those that have a left row's by-values, and a search among them by key. A left row is told by the place of its first word.
ghost use Rattle.std.specs.Prelude.{◌≡◌, ℕ, ◌≤◌, ◌<◌};
ghost use Rattle.frames.specs.Cells.{cell_of, row_from, rows_of, rows_in};
ghost use Rattle.order.specs.ranks.Ranks.{Indexed};
ghost use Rattle.order.specs.options.Options.{without_list, options_of};
ghost use Rattle.order.specs.Requires.{cell_at, CellIn, RowAt, RowsIn};
ghost use Rattle.searching.specs.Reach.{narrow_by, narrowed, find_key};
ghost use Rattle.searching.specs.Requires.{range_of, ColumnIn};
ghost use Rattle.buffer.specs.narrowing.Column.{narrow_to};

use crate::bisect::find;
use frames::RowSlice;
use order::options::{Rules, Terms, is_ranked};
use searching::{Seek, Stretch};

// The stretch narrowed to the rows whose cell in column j is this one: from the first that is at least it to the first above it.
fn narrow_column(
    descending: bool,
    nulls_last: bool,
    codes: &[i64],
    rising: &[u8],
    value: i64,
    mark: i64,
    right: RowSlice<'_>,
    j: usize,
    s: Stretch,
) -> Stretch
    requires { Indexed codes.now rising.now × ColumnIn j right.width s.end right.values.now right.marks.now }
    ensures { (n : ℕ) → s.end ≤ n → range_of result ≡ narrow_to (record { descending = descending; nulls_last = nulls_last; codes = codes.now }) j (cell_of value mark) (rows_of right.entry.width n right.entry.values.now right.entry.marks.now) (range_of s) }
{
    let start = find(
        Seek::AtLeast,
        descending,
        nulls_last,
        codes,
        rising,
        j,
        value,
        mark,
        right,
        s.start,
        s.end,
    );
    let end = find(
        Seek::Above,
        descending,
        nulls_last,
        codes,
        rising,
        j,
        value,
        mark,
        right,
        start,
        s.end,
    );
    Stretch {
        start: start,
        end: end,
    }
}

// The stretch narrowed by the left row's by-value in column j.
fn narrow_by(
    left: RowSlice<'_>,
    p: usize,
    right: RowSlice<'_>,
    j: usize,
    s: Stretch,
    rules: Rules<'_>,
) -> Stretch
    requires { RowAt (options_of rules) p left.values.now left.marks.now × ColumnIn j right.width s.end right.values.now right.marks.now × (j < rules.terms.by) }
    ensures { (n wl : ℕ) → s.end ≤ n → rules.entry.terms.by < wl → range_of result ≡ narrow_by (options_of rules.entry) (rows_of right.entry.width n right.entry.values.now right.entry.marks.now) (row_from wl p left.entry.values.now left.entry.marks.now) j (range_of s) }
{
    let n = if is_ranked(rules.terms, j) {
        rules.terms.count
    } else {
        0
    };
    let k = p + j;
    narrow_column(
        rules.terms.descending[j],
        rules.terms.nulls_last[j],
        &rules.codes[..n],
        &rules.rising[..n],
        left.values[k],
        left.marks[k],
        right,
        j,
        s,
    )
}

// The held rows whose by-values are those of the left row at p, as a stretch of all n: narrowed by each by-column in order.
pub fn narrow(left: RowSlice<'_>, p: usize, right: RowSlice<'_>, rules: Rules<'_>) -> Stretch
    requires { RowAt (options_of rules) p left.values.now left.marks.now × RowsIn (options_of rules) right.width right.count right.values.now right.marks.now }
    ensures { (wl : ℕ) → rules.entry.terms.by < wl → range_of result ≡ narrowed (options_of rules.entry) (rows_in right.entry) (row_from wl p left.entry.values.now left.entry.marks.now) }
{
    let mut r = Stretch {
        start: 0,
        end: right.count,
    };
    for j in 0..rules.terms.by {
        r = narrow_by(left, p, right, j, r, rules);
    }
    r
}

// The first held row of lower..upper whose key meets the cell at place k of kv and km.
pub fn find_key(
    seek: Seek,
    kept: RowSlice<'_>,
    k: usize,
    right: RowSlice<'_>,
    lower: usize,
    upper: usize,
    o: Terms,
) -> usize
    requires { CellIn k kept.values.now kept.marks.now × ColumnIn o.by right.width upper right.values.now right.marks.now }
    ensures { (n : ℕ) → upper ≤ n → result ≡ find_key (without_list o) seek (cell_at k kept.entry.values.now kept.entry.marks.now) (rows_of right.entry.width n right.entry.values.now right.entry.marks.now) lower upper }
{
    find(
        seek,
        false,
        false,
        &[],
        &[],
        o.by,
        kept.values[k],
        kept.marks[k],
        right,
        lower,
        upper,
    )
}
