// Two tables of subtotals side by side, written as one.
ghost use Rattle.std.specs.Prelude.{◌≡◌, map};
ghost use Rattle.order.specs.options.Options.{options_of};
ghost use Rattle.tables.specs.Lay.{flat, lay_cells};
ghost use Rattle.takings.specs.Subtotals.{row_of};
ghost use Rattle.subtotals.specs.takejoin.Join.{joined, subs_from, JoinRoom};

use crate::takejoin::next_side;
use crate::takerows::{put_one, put_sum};
use frames::RowSlice;
use order::options::Rules;
use std::cmp::Ordering;

// The cells of the joined table, of m.
pub fn put_joined(
    table: RowSlice<'_>,
    added: RowSlice<'_>,
    rules: Rules<'_>,
    m: usize,
    out: &mut [i64],
)
    requires { JoinRoom (options_of rules) table.width table.count table.values.now table.marks.now added.count added.values.now added.marks.now m out.old }
    ensures { out.new ≡ lay_cells m 0 (flat (map row_of (joined (options_of rules.entry) (subs_from (options_of rules.entry) table.entry.width 0 table.entry.count table.entry.values.now table.entry.marks.now) (subs_from (options_of rules.entry) table.entry.width 0 added.entry.count added.entry.values.now added.entry.marks.now)))) out.old }
{
    let by = rules.terms.by;
    let mut i = 0;
    let mut j = 0;
    let mut k = 0;
    // A while: each turn takes the next row of one table, or of both.
    while k < m {
        match next_side(table, i, added, j, rules) {
            Ordering::Less => {
                put_one(out, m, k, table, i, by);
                i += 1;
                k += table.width;
            }
            Ordering::Equal => {
                put_sum(out, m, k, table, i, added, j, by);
                i += 1;
                j += 1;
                k += table.width;
            }
            Ordering::Greater => {
                put_one(
                    out,
                    m,
                    k,
                    RowSlice {
                        width: table.width,
                        ..added
                    },
                    j,
                    by,
                );
                j += 1;
                k += table.width;
            }
        }
    }
}
