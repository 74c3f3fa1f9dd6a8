// Refusals 15 and 6 of a table and a frame's sales: amounts, sums and the number beside the table; room in the output.
ghost use Rattle.std.specs.Prelude.{◌≡◌, List, ℕ, suc, ◌≤◌, leb, length};
ghost use Rattle.frames.specs.Cells.{rows_of, Words, rows_in};
ghost use Rattle.frames.specs.Frame.{frame_words};
ghost use Rattle.order.specs.options.Options.{with_list, options_of};
ghost use Rattle.takings.specs.Subtotals.{Subtotal, add_all};
ghost use Rattle.takings.specs.Sales.{sales_of, amounts_of};
ghost use Rattle.subtotals.specs.takejudge.Judge.{Sheet};
ghost use Rattle.sales.specs.salekind.Kinds.{FrameIn};
ghost use Rattle.sales.specs.salecount.Counts.{TableIs, CountIn};
ghost use Rattle.sales.specs.saleweigh.Weighed.{Weighed};

use crate::salegroups::count_groups;
use crate::salekind::{Tally, count_kinds};
use crate::saleorder::count_ordered;
use frames::RowSlice;
use order::options::{Rules, Terms};
use rows::framerule::has_room;
use subtotals::subtables::{MOST_SALES, count_sales};
use subtotals::takejudge::bad_number;

// A table with its number, and the sales of a frame: counted, or beyond the bounds.
pub fn weigh(
    table: RowSlice<'_>,
    number: i64,
    left: RowSlice<'_>,
    answers: RowSlice<'_>,
    o: Terms,
) -> Tally
    requires { Sheet o.by table.width table.count table.values.now table.marks.now × FrameIn o.by left.count answers.width left.marks.now answers.values.now answers.marks.now }
    ensures { (lv codes : Words) (rising : List ℕ) → length left.entry.marks.now ≤ length lv → Weighed (with_list o codes rising) (rows_in table.entry) number (sales_of (with_list o codes rising) (rows_of (suc o.by) left.entry.count lv left.entry.marks.now) (rows_of answers.entry.width left.entry.count answers.entry.values.now answers.entry.marks.now)) result.sales result.nulls result.beyond }
{
    let over = Tally {
        sales: 0,
        nulls: 0,
        beyond: true,
    };
    if bad_number(number) {
        return over;
    }
    let s = count_sales(0, table.values, table.count, table.width, o.by);
    if MOST_SALES < s {
        return over;
    }
    let t = count_kinds(left, answers, o);
    if t.beyond {
        return over;
    }
    if MOST_SALES < s + t.sales {
        return over;
    }
    if MOST_SALES < number as usize + t.nulls {
        return over;
    }
    t
}

// Whether the result has room in so many words. Most outputs have room for a row for each sale: then no row is counted. Sales in group order are counted in one walk, others by the groups that they are of.
pub fn rows_fit(
    table: RowSlice<'_>,
    left: RowSlice<'_>,
    answers: RowSlice<'_>,
    sales: usize,
    room: usize,
    rules: Rules<'_>,
) -> bool
    requires { CountIn (options_of rules) table.count left.count answers.width table.values.now left.values.now left.marks.now answers.marks.now × (sales ≤ 4096) }
    ensures { (ts : List Subtotal) (av : Words) → length answers.entry.marks.now ≤ length av → TableIs (options_of rules.entry) table.entry.count ts table.entry.values.now → sales ≡ length (amounts_of (sales_of (options_of rules.entry) (rows_of (suc rules.entry.terms.by) left.entry.count left.entry.values.now left.entry.marks.now) (rows_of answers.entry.width left.entry.count av answers.entry.marks.now))) → result ≡ leb (frame_words (length (add_all (options_of rules.entry) ts (amounts_of (sales_of (options_of rules.entry) (rows_of (suc rules.entry.terms.by) left.entry.count left.entry.values.now left.entry.marks.now) (rows_of answers.entry.width left.entry.count av answers.entry.marks.now))))) (suc (suc rules.entry.terms.by))) room }
{
    let w = rules.terms.by + 2;
    if has_room(table.count + sales, w, room) {
        return true;
    }
    if let Some(m) = count_ordered(table, left, answers, rules) {
        return has_room(m, w, room);
    }
    let m = count_groups(table, left, answers, rules);
    has_room(m, w, room)
}
