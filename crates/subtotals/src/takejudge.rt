// Accounts of takings, judged by the definitions: 14 of one table, 15 of two tables and their numbers.
ghost use Rattle.std.specs.Prelude.{◌≡◌, List, ℕ};
ghost use Rattle.frames.specs.Cells.{rows_of, Words, rows_in};
ghost use Rattle.order.specs.options.Options.{with_list, Few, options_of};
ghost use Rattle.takings.specs.Subtotals.{beyond_number};
ghost use Rattle.subtotals.specs.takejudge.Judge.{Sheet, fine_rows, beyond_accounts};

use crate::subtables::{MOST_SALES, count_sales, is_ascending};
use frames::RowSlice;
use order::options::{Rules, Terms};
use rows::nulls::any_null;

// Whether a table has no null and strictly ascending groups.
pub fn is_fine(rows: RowSlice<'_>, rules: Rules<'_>) -> bool
    requires { Few (options_of rules) × Sheet rules.terms.by rows.width rows.count rows.values.now rows.marks.now }
    ensures { result ≡ fine_rows (options_of rules.entry) rows.entry.width (rows_in rows.entry) }
{
    if any_null(rows.marks) {
        return false;
    }
    is_ascending(rows, rules)
}

// Whether a number of sales without an amount is outside 0 to 2^31.
pub fn bad_number(number: i64) -> bool
    ensures { result ≡ beyond_number number }
{
    if number < 0 {
        return true;
    }
    2147483648 < number
}

// Whether two tables with their numbers, or what they give together, are beyond the bounds.
pub fn is_beyond(
    table: RowSlice<'_>,
    number: i64,
    added: RowSlice<'_>,
    other: i64,
    o: Terms,
) -> bool
    requires { Sheet o.by table.width table.count table.values.now table.marks.now × Sheet o.by table.width added.count added.values.now added.marks.now }
    ensures { (codes : Words) (rising : List ℕ) → result ≡ beyond_accounts (with_list o codes rising) (rows_in table.entry) number (rows_of table.entry.width added.entry.count added.entry.values.now added.entry.marks.now) other }
{
    let by = o.by;
    if bad_number(number) {
        return true;
    }
    if bad_number(other) {
        return true;
    }
    let s = count_sales(0, table.values, table.count, table.width, by);
    if MOST_SALES < s {
        return true;
    }
    let t = count_sales(s, added.values, added.count, table.width, by);
    if MOST_SALES < t {
        return true;
    }
    MOST_SALES < number as usize + other as usize
}
