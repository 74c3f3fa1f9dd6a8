// How far the held rows serve a left row: whether more are needed, and how many of them a prune drops.
ghost use Rattle.std.specs.Prelude.{◌≡◌, ℕ, ◌-◌, ◌≤◌, ◌<◌, max};
ghost use Rattle.frames.specs.Cells.{row_from, rows_in};
ghost use Rattle.order.specs.options.Options.{without_list, strategy_of, options_of};
ghost use Rattle.order.specs.Requires.{cell_at, CellIn, RowAt, RowsIn};
ghost use Rattle.searching.specs.Reach.{seek_of, key_needs_more, need_more, step_back, split_at, prune_by};
ghost use Rattle.searching.specs.Requires.{range_of, PlaceIn};

use crate::narrowing::{find_key, narrow};
use frames::RowSlice;
use order::options::{Rules, Strategy, Terms, strategy_of};
use searching::{Seek, Stretch};

// What need more looks for: the first key at least the left key for Forward with equality and Backward without, else the first above it.
fn seek_of(s: Strategy, allow_eq: bool) -> Seek
    ensures { result ≡ seek_of s allow_eq }
{
    // A match: each strategy has its own arm in the definition too.
    match s {
        Strategy::Backward => {
            if allow_eq {
                return Seek::Above;
            }
            Seek::AtLeast
        }
        Strategy::Forward => {
            if allow_eq {
                return Seek::AtLeast;
            }
            Seek::Above
        }
        Strategy::Nearest => Seek::Above,
    }
}

// Whether more right rows are needed by the left key, which stands at place k. Nearest wants a key beyond the first greater one too.
fn key_needs_more(left: RowSlice<'_>, k: usize, right: RowSlice<'_>, s: Stretch, o: Terms) -> bool
    requires { CellIn k left.values.now left.marks.now × RowsIn (without_list o) right.width right.count right.values.now right.marks.now × (s.end ≤ right.count) }
    ensures { result ≡ key_needs_more (without_list o) (strategy_of (without_list o)) (cell_at k left.entry.values.now left.entry.marks.now) (rows_in right.entry) (range_of s) }
{
    let strategy = strategy_of(o);
    let seek = seek_of(strategy, o.allow_eq);
    let g = find_key(seek, left, k, right, s.start, s.end, o);
    if right.count <= g {
        return true;
    }
    // A match: each strategy has its own arm in the definition too.
    match strategy {
        Strategy::Backward => false,
        Strategy::Forward => false,
        Strategy::Nearest => {
            right.count
                <= find_key(
                    Seek::Above,
                    right,
                    g * right.width + o.by,
                    right,
                    g,
                    s.end,
                    o,
                )
        }
    }
}

// Whether the held rows, n of them, do not suffice yet for the last left row.
#[inline(always)]
pub fn need_more(left: RowSlice<'_>, right: RowSlice<'_>, rules: Rules<'_>) -> bool
    requires { RowsIn (options_of rules) left.width left.count left.values.now left.marks.now × RowsIn (options_of rules) right.width right.count right.values.now right.marks.now }
    ensures { result ≡ need_more (options_of rules.entry) (rows_in left.entry) (rows_in right.entry) }
{
    if left.count == 0 {
        return false;
    }
    if right.count == 0 {
        return true;
    }
    let p = (left.count - 1) * left.width;
    let s = narrow(left, p, right, rules);
    if s.start == right.count {
        return true;
    }
    if s.end < right.count {
        return false;
    }
    key_needs_more(left, p + rules.terms.by, right, s, rules.terms)
}

// One place back, but not below start.
fn one_back(start: usize, at: usize) -> usize
    ensures { result ≡ max (at - 1) start }
{
    if at <= start {
        return start;
    }
    at - 1
}

// Backward and Nearest keep the row before the one that was found.
fn step_back(s: Strategy, start: usize, at: usize) -> usize
    ensures { result ≡ step_back s start at }
{
    // A match: each strategy has its own arm in the definition too.
    match s {
        Strategy::Backward => one_back(start, at),
        Strategy::Forward => at,
        Strategy::Nearest => one_back(start, at),
    }
}

// The split of a prune by the left row at p. Without by-columns nothing is narrowed.
fn split_at(left: RowSlice<'_>, p: usize, right: RowSlice<'_>, rules: Rules<'_>) -> usize
    requires { RowAt (options_of rules) p left.values.now left.marks.now × RowsIn (options_of rules) right.width right.count right.values.now right.marks.now }
    ensures { (wl : ℕ) → rules.entry.terms.by < wl → result ≡ split_at (options_of rules.entry) (row_from wl p left.entry.values.now left.entry.marks.now) (rows_in right.entry) }
{
    let strategy = strategy_of(rules.terms);
    if rules.terms.by == 0 {
        let key = find_key(Seek::AtLeast, left, p, right, 0, right.count, rules.terms);
        return step_back(strategy, 0, key);
    }
    let s = narrow(left, p, right, rules);
    let at = find_key(
        Seek::AtLeast,
        left,
        p + rules.terms.by,
        right,
        s.start,
        s.end,
        rules.terms,
    );
    step_back(strategy, s.start, at)
}

// How many of the n held rows a prune by row i of the left frame drops.
#[inline(always)]
pub fn prune_by(i: usize, left: RowSlice<'_>, right: RowSlice<'_>, rules: Rules<'_>) -> usize
    requires { PlaceIn i left.count × RowsIn (options_of rules) left.width left.count left.values.now left.marks.now × RowsIn (options_of rules) right.width right.count right.values.now right.marks.now }
    ensures { result ≡ prune_by (options_of rules.entry) i (rows_in left.entry) (rows_in right.entry) }
{
    if left.count == 0 {
        return 0;
    }
    if right.count == 0 {
        return 0;
    }
    split_at(left, i * left.width, right, rules)
}
