// The order of groups and rows. A row is told by its rows and the place of its first word among them.
ghost use Rattle.std.specs.Prelude.{◌≡◌, ℕ, ◌+◌, ◌<◌, ◌≤◌, []};
ghost use Rattle.frames.specs.Cells.{row_from};
ghost use Rattle.order.specs.options.Options.{by_rule, options_of};
ghost use Rattle.order.specs.Order.{cmp_cell, cmp_group, cmp_row};
ghost use Rattle.order.specs.Requires.{cell_at, CellIn, RowAt};
ghost use Rattle.rows.specs.compare.Requires.{GroupAt};

use crate::cells::{cmp_cell, cmp_listed};
use frames::RowSlice;
use order::options::{Rules, is_ranked};
use std::cmp::Ordering;

// The cell at place ka of the one side, and that at place kb of the other, of a column without a list.
fn cmp_at(
    a: RowSlice<'_>,
    ka: usize,
    b: RowSlice<'_>,
    kb: usize,
    descending: bool,
    nulls_last: bool,
) -> Ordering
    requires { CellIn ka a.values.now a.marks.now × CellIn kb b.values.now b.marks.now }
    ensures { result ≡ cmp_cell (record { descending = descending; nulls_last = nulls_last; codes = [] }) (cell_at ka a.entry.values.now a.entry.marks.now) (cell_at kb b.entry.values.now b.entry.marks.now) }
{
    cmp_cell(
        a.values[ka],
        a.marks[ka],
        b.values[kb],
        b.marks[kb],
        descending,
        nulls_last,
    )
}

// By-column j of the rows at pa and pb.
fn cmp_column(
    a: RowSlice<'_>,
    pa: usize,
    b: RowSlice<'_>,
    pb: usize,
    j: usize,
    rules: Rules<'_>,
) -> Ordering
    requires { GroupAt (options_of rules) pa a.values.now a.marks.now × GroupAt (options_of rules) pb b.values.now b.marks.now × (j < rules.terms.by) }
    ensures { result ≡ cmp_cell (by_rule (options_of rules.entry) j) (cell_at (pa + j) a.entry.values.now a.entry.marks.now) (cell_at (pb + j) b.entry.values.now b.entry.marks.now) }
{
    let descending = rules.terms.descending;
    let last = rules.terms.nulls_last;
    let p = pa + j;
    let q = pb + j;
    if is_ranked(rules.terms, j) {
        let n = rules.terms.count;
        return cmp_listed(
            a.values[p],
            a.marks[p],
            b.values[q],
            b.marks[q],
            descending[j],
            last[j],
            &rules.codes[..n],
            &rules.rising[..n],
        );
    }
    cmp_at(a, p, b, q, descending[j], last[j])
}

// The by-values at pa and pb, whatever stands behind them.
pub fn cmp_by(a: RowSlice<'_>, pa: usize, b: RowSlice<'_>, pb: usize, rules: Rules<'_>) -> Ordering
    requires { GroupAt (options_of rules) pa a.values.now a.marks.now × GroupAt (options_of rules) pb b.values.now b.marks.now }
    ensures { (wa wb : ℕ) → rules.entry.terms.by ≤ wa → rules.entry.terms.by ≤ wb → result ≡ cmp_group (options_of rules.entry) (row_from wa pa a.entry.values.now a.entry.marks.now) (row_from wb pb b.entry.values.now b.entry.marks.now) }
{
    let by = rules.terms.by;
    for j in 0..by {
        let r = cmp_column(a, pa, b, pb, j, rules);
        match r {
            Ordering::Equal => {}
            _ => return r,
        }
    }
    Ordering::Equal
}

// The groups of the rows at pa and pb, whatever the rows' widths.
pub fn cmp_group(
    a: RowSlice<'_>,
    pa: usize,
    b: RowSlice<'_>,
    pb: usize,
    rules: Rules<'_>,
) -> Ordering
    requires { RowAt (options_of rules) pa a.values.now a.marks.now × RowAt (options_of rules) pb b.values.now b.marks.now }
    ensures { (wa wb : ℕ) → rules.entry.terms.by < wa → rules.entry.terms.by < wb → result ≡ cmp_group (options_of rules.entry) (row_from wa pa a.entry.values.now a.entry.marks.now) (row_from wb pb b.entry.values.now b.entry.marks.now) }
{
    cmp_by(a, pa, b, pb, rules)
}

// The rows at pa and pb: by group, then by key.
pub fn cmp_row(a: RowSlice<'_>, pa: usize, b: RowSlice<'_>, pb: usize, rules: Rules<'_>) -> Ordering
    requires { RowAt (options_of rules) pa a.values.now a.marks.now × RowAt (options_of rules) pb b.values.now b.marks.now }
    ensures { (wa wb : ℕ) → rules.entry.terms.by < wa → rules.entry.terms.by < wb → result ≡ cmp_row (options_of rules.entry) (row_from wa pa a.entry.values.now a.entry.marks.now) (row_from wb pb b.entry.values.now b.entry.marks.now) }
{
    let r = cmp_group(a, pa, b, pb, rules);
    let by = rules.terms.by;
    match r {
        Ordering::Equal => cmp_at(a, pa + by, b, pb + by, false, false),
        _ => r,
    }
}
