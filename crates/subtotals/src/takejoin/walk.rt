// Two tables of subtotals, side by side: the row of the lesser group is next, both where they are of one group.
ghost use Rattle.std.specs.Prelude.{◌≡◌, ◌+◌, ◌≤◌, length};
ghost use Rattle.order.specs.options.Options.{options_of};
ghost use Rattle.subtotals.specs.takejoin.Join.{side, joined, subs_from, NextRow, Both};

use frames::RowSlice;
use order::options::Rules;
use rows::compare::cmp_group;
use std::cmp::Ordering;

// Which row is next: the one table's where it is less or the other has none left, the other's where it is greater, both where they are equal.
pub fn next_side(
    table: RowSlice<'_>,
    i: usize,
    added: RowSlice<'_>,
    j: usize,
    rules: Rules<'_>,
) -> Ordering
    requires { NextRow (options_of rules) table.width table.count i table.values.now table.marks.now × NextRow (options_of rules) table.width added.count j added.values.now added.marks.now }
    ensures { result ≡ side (options_of rules.entry) (subs_from (options_of rules.entry) table.entry.width i table.entry.count table.entry.values.now table.entry.marks.now) (subs_from (options_of rules.entry) table.entry.width j added.entry.count added.entry.values.now added.entry.marks.now) }
{
    if i == table.count {
        return Ordering::Greater;
    }
    if j == added.count {
        return Ordering::Less;
    }
    cmp_group(table, i * table.width, added, j * table.width, rules)
}

// How many rows the joined table has.
pub fn count_joined(table: RowSlice<'_>, added: RowSlice<'_>, rules: Rules<'_>) -> usize
    requires { Both (options_of rules) table.width table.count table.values.now table.marks.now added.count added.values.now added.marks.now }
    ensures { (result ≡ length (joined (options_of rules.entry) (subs_from (options_of rules.entry) table.entry.width 0 table.entry.count table.entry.values.now table.entry.marks.now) (subs_from (options_of rules.entry) table.entry.width 0 added.entry.count added.entry.values.now added.entry.marks.now))) × (result ≤ table.entry.count + added.entry.count) }
{
    let mut n = 0;
    let mut i = 0;
    let mut j = 0;
    // A while: each turn takes the next row of one table, or of both.
    while i + j < table.count + added.count {
        match next_side(table, i, added, j, rules) {
            Ordering::Less => {
                i += 1;
                n += 1;
            }
            Ordering::Equal => {
                i += 1;
                j += 1;
                n += 1;
            }
            Ordering::Greater => {
                j += 1;
                n += 1;
            }
        }
    }
    n
}
