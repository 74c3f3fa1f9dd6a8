// Tables of subtotals, judged: no null, groups strictly ascending, totals and sale counts within their bounds.
ghost use Rattle.std.specs.Prelude.{◌≡◌, ◌≤◌};
ghost use Rattle.frames.specs.Cells.{rows_in};
ghost use Rattle.order.specs.options.Options.{options_of};
ghost use Rattle.order.specs.Requires.{RowsIn};
ghost use Rattle.takings.specs.Subtotals.{ascending, subtotals_of, most_sales};
ghost use Rattle.subtotals.specs.subtables.Sheet.{Sheet, Summed, Counted};

use frames::RowSlice;
use order::options::Rules;
use rows::cells::distance;
use rows::compare::cmp_group;

// The most sales that a table may tell.
pub const MOST_SALES: usize = 2147483648;

// Whether the group of each row is less than the next one's.
pub fn is_ascending(rows: RowSlice<'_>, rules: Rules<'_>) -> bool
    requires { RowsIn (options_of rules) rows.width rows.count rows.values.now rows.marks.now }
    ensures { result ≡ ascending (options_of rules.entry) (subtotals_of (options_of rules.entry) (rows_in rows.entry)) }
{
    let w = rows.width;
    for i in 1..rows.count {
        if !cmp_group(rows, (i - 1) * w, rows, i * w, rules).is_lt() {
            return false;
        }
    }
    true
}

// The sum of sale counts with one more row; above 2^31 where that row is beyond its bounds.
fn with_row(sum: usize, total: i64, count: i64) -> usize
    requires { sum ≤ most_sales }
    ensures { Summed sum total count result }
{
    if count < 1 {
        return MOST_SALES + 1;
    }
    if 2147483648 < count {
        return MOST_SALES + 1;
    }
    if count as u64 * 1000000000 < distance(total, 0) {
        return MOST_SALES + 1;
    }
    sum + count as usize
}

// The sum of sale counts with those of n rows; above 2^31 where it is too large, or a row is beyond its bounds.
pub fn count_sales(sum: usize, values: &[i64], n: usize, w: usize, by: usize) -> usize
    requires { Sheet by w n values.now × (sum ≤ most_sales) }
    ensures { Counted by w n values.now sum result }
{
    let mut s = sum;
    for i in 0..n {
        let k = i * w + by;
        s = with_row(s, values[k], values[k + 1]);
        if MOST_SALES < s {
            return s;
        }
    }
    s
}
