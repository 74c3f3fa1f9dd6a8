// Where a sorted table is cut for a list of boundaries: the call.
ghost use Rattle.std.specs.Prelude.{◌≡◌, ◌≤◌, length};
ghost use Rattle.frames.specs.Cells.{rows_of, rows_in};
ghost use Rattle.order.specs.options.Options.{without_list, options_of};
ghost use Rattle.cutting.specs.cutcall.Calls.{side_columns, words_judged, CutContract, RowsContract, BothIn};

use crate::boundaries::{bad_boundaries, put_places};
use callrules::judges::judge_open;
use callrules::listed::lacks_code;
use frames::RowSlice;
use frames::refusals::Refusal;
use groups::neighbours::is_sorted;
use order::options::{Options, Rules, Terms, left_columns, right_columns};
use rows::framerule::{has_room, is_frame, is_table, row_count};
use tables::put_head;

// The columns of a left row, or of a right one.
// A flag for the side, as in C: the host says it in the call.
fn side_columns(right: bool, o: Terms) -> usize
    requires { (o.by ≤ 4) × (o.carried ≤ 8) }
    ensures { result ≡ side_columns (without_list o) right }
{
    if right {
        return right_columns(o);
    }
    left_columns(o)
}

// The refusals before rows are compared: by the options, by the words of the table and of the boundaries, by their codes.
// A flag for the side, as in C: the host says it in the call.
fn judge_words(
    table: &[i64],
    boundaries: &[i64],
    right: bool,
    rules: Rules<'_>,
) -> Result<(), Refusal>
    requires { (64 ≤ length rules.codes.now) × (64 ≤ length rules.rising.now) }
    ensures { result ≡ words_judged (options_of rules.entry) right table.now boundaries.now }
{
    judge_open(rules)?;
    let c = side_columns(right, rules.terms);
    if !is_table(table, c) {
        return Err(Refusal::BadFrame);
    }
    if !is_frame(boundaries, rules.terms.by) {
        return Err(Refusal::BadFrame);
    }
    if lacks_code(table, c, rules) {
        return Err(Refusal::UnknownCode);
    }
    if lacks_code(boundaries, rules.terms.by, rules) {
        return Err(Refusal::UnknownCode);
    }
    Ok(())
}

// The places for k boundaries in n rows, each w wide, as a table of one column; refused by 14 where the rows are not sorted, by 18 for the boundaries, by 6 where the output is too short.
fn cut_rows(
    rows: RowSlice<'_>,
    bounds: RowSlice<'_>,
    rules: Rules<'_>,
    out: &mut [i64],
) -> Result<usize, Refusal>
    requires { BothIn (options_of rules) rows.width rows.count rows.values.now rows.marks.now bounds.count bounds.values.now bounds.marks.now }
    ensures { RowsContract (options_of rules.entry) (rows_in rows.entry) (rows_of rules.entry.terms.by bounds.entry.count bounds.entry.values.now bounds.entry.marks.now) out.old result out.new }
{
    if !is_sorted(rows, rules) {
        return Err(Refusal::Unsorted);
    }
    if bad_boundaries(bounds, rules) {
        return Err(Refusal::BadBoundaries);
    }
    if !has_room(bounds.count, 1, out.len()) {
        return Err(Refusal::NoRoom);
    }
    put_places(rows, bounds, rules, out);
    put_head(out, bounds.count, 1);
    Ok(bounds.count)
}

// The same of a table and boundaries that are handed in whole, under these options.
// A flag for the side, as in C: the host says it in the call.
fn cut_listed(
    table: &[i64],
    boundaries: &[i64],
    right: bool,
    rules: Rules<'_>,
    out: &mut [i64],
) -> Result<usize, Refusal>
    requires { (64 ≤ length rules.codes.now) × (64 ≤ length rules.rising.now) }
    ensures { CutContract (options_of rules.entry) right table.now boundaries.now out.old result out.new }
{
    judge_words(table, boundaries, right, rules)?;
    let w = side_columns(right, rules.terms);
    let n = row_count(table);
    let k = row_count(boundaries);
    let e = 2 + n * w;
    let f = 2 + k * rules.terms.by;
    cut_rows(
        RowSlice {
            values: &table[2..e],
            marks: &table[e..],
            count: n,
            width: w,
        },
        RowSlice {
            values: &boundaries[2..f],
            marks: &boundaries[f..],
            count: k,
            width: rules.terms.by,
        },
        rules,
        out,
    )
}

// Tells where a sorted table, of left rows or of right ones, is cut for each boundary: before the first row whose group is not less.
// A flag for the side, as in C: the host says it in the call.
pub fn cut(
    table: &[i64],
    boundaries: &[i64],
    right: bool,
    o: Options,
    out: &mut [i64],
) -> Result<usize, Refusal>
    ensures { CutContract o right table.now boundaries.now out.old result out.new }
{
    cut_listed(table, boundaries, right, o.rules(), out)
}
