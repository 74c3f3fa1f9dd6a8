// What a turn asks of rows: whether they are in order, how many its prunes drop, which row is remembered. No join is seen here.
ghost use Rattle.std.specs.Prelude.{◌≡◌, ◌-◌, ◌*◌, ◌≤◌, length, drop};
ghost use Rattle.frames.specs.Cells.{rows_of, Words, rows_in};
ghost use Rattle.order.specs.options.Options.{without_list, options_of};
ghost use Rattle.order.specs.Keyed.{first_left, last_left_at};
ghost use Rattle.order.specs.Requires.{KeysIn, RowsIn};
ghost use Rattle.searching.specs.Reach.{prune_by};
ghost use Rattle.buffer.specs.splitcheck.Requires.{SplitIn};
ghost use Rattle.matchframe.specs.turnrows.Prunes.{bad_left, bad_right_at, first_prune, remembered, remembered_left};

use buffer::pruning::prune_by;
use buffer::splitcheck::{bad_split, out_of_order, remember_found};
use frames::RowSlice;
use groups::neighbours::is_sorted;
use order::Row;
use order::options::{Rules, Terms, checks};
use rows::keyed::{first_keyed, last_keyed};

// The row of n left rows that is compared with the remembered one: the first with a key, or, strict, the first.
fn first_left(marks: &[i64], n: usize, c: usize, o: Terms) -> Option<usize>
    requires { KeysIn (without_list o) c n marks.now }
    ensures { (vs : Words) → n * c ≤ length vs → result ≡ first_left (without_list o) (rows_of c n vs marks.now) }
{
    if !o.check.is_strict() {
        return first_keyed(marks, n, c, o);
    }
    if n == 0 {
        return None;
    }
    Some(0)
}

// The row of n left rows that is remembered: the last with a key, or, strict, the last.
fn last_left(marks: &[i64], n: usize, c: usize, o: Terms) -> Option<usize>
    requires { KeysIn (without_list o) c n marks.now }
    ensures { (vs : Words) → n * c ≤ length vs → result ≡ last_left_at (without_list o) (rows_of c n vs marks.now) }
{
    if !o.check.is_strict() {
        return last_keyed(marks, n, c, o);
    }
    if n == 0 {
        return None;
    }
    Some(n - 1)
}

// Whether the left rows are out of order, with the check on: behind the remembered row, or among themselves.
pub fn bad_left(m: Row, left: RowSlice<'_>, rules: Rules<'_>) -> bool
    requires { RowsIn (options_of rules) left.width left.count left.values.now left.marks.now }
    ensures { result ≡ bad_left (options_of rules.entry) m (rows_in left.entry) }
{
    if !checks(rules.terms) {
        return false;
    }
    let first = first_left(left.marks, left.count, left.width, rules.terms);
    if out_of_order(m, first, left, rules) {
        return true;
    }
    !is_sorted(left, rules)
}

// Whether the held rows are out of order, with the check on: among themselves, or at the split s of a prune by a frame of n rows.
pub fn bad_right(m: Row, n: usize, s: usize, right: RowSlice<'_>, rules: Rules<'_>) -> bool
    requires { SplitIn (options_of rules) s right.width right.count right.values.now right.marks.now }
    ensures { result ≡ bad_right_at (options_of rules.entry) m n s (rows_in right.entry) }
{
    if !checks(rules.terms) {
        return false;
    }
    if !is_sorted(right, rules) {
        return true;
    }
    if n == 0 {
        return false;
    }
    if right.count == 0 {
        return false;
    }
    bad_split(m, s, right, rules)
}

// How many held rows the prune by row 0 drops, which is made only with the check off.
pub fn first_prune(left: RowSlice<'_>, right: RowSlice<'_>, rules: Rules<'_>) -> usize
    requires { RowsIn (options_of rules) left.width left.count left.values.now left.marks.now × RowsIn (options_of rules) right.width right.count right.values.now right.marks.now }
    ensures { result ≡ first_prune (options_of rules.entry) (rows_in left.entry) (rows_in right.entry) }
{
    if checks(rules.terms) {
        return 0;
    }
    prune_by(0, left, right, rules)
}

// How many held rows the prune by the last row drops; no row, no prune.
pub fn last_prune(left: RowSlice<'_>, right: RowSlice<'_>, rules: Rules<'_>) -> usize
    requires { RowsIn (options_of rules) left.width left.count left.values.now left.marks.now × RowsIn (options_of rules) right.width right.count right.values.now right.marks.now }
    ensures { result ≡ prune_by (options_of rules.entry) (left.entry.count - 1) (rows_in left.entry) (rows_in right.entry) }
{
    if left.count == 0 {
        return 0;
    }
    prune_by(left.count - 1, left, right, rules)
}

// The row that left remembers after n rows went by, which it does only with the check on.
pub fn remembered_left(m: Row, left: RowSlice<'_>, o: Terms) -> Row
    requires { RowsIn (without_list o) left.width left.count left.values.now left.marks.now }
    ensures { result ≡ remembered_left (without_list o) m (rows_in left.entry) }
{
    if !checks(o) {
        return m;
    }
    let last = last_left(left.marks, left.count, left.width, o);
    remember_found(m, last, left, o)
}

// The row that right remembers after n rows went by, which it does only with the check on.
pub fn remembered(m: Row, rows: RowSlice<'_>, o: Terms) -> Row
    requires { RowsIn (without_list o) rows.width rows.count rows.values.now rows.marks.now }
    ensures { result ≡ remembered (without_list o) m (rows_in rows.entry) }
{
    if !checks(o) {
        return m;
    }
    let last = last_keyed(rows.marks, rows.count, rows.width, o);
    remember_found(m, last, rows, o)
}

// The words from row i on, of rows that are each w wide.
pub fn from_row<'a>(words: &'a [i64], i: usize, w: usize) -> &'a [i64]
    requires { i * w ≤ length words.now }
    ensures { result.now ≡ drop (i * w) words.now }
{
    let p = i * w;
    &words[p..]
}
