// The figures of a plan, by one walk over the frames of two sorted tables: no row is copied, no match is written, no area is needed.
ghost use Rattle.std.specs.Prelude.{◌≡◌, suc, ◌+◌, ◌^◌, ◌≤◌, ◌<◌, max, false, ◌&&◌, pos, nat_abs, length, get_or};
ghost use Rattle.frames.specs.Cells.{rows_in};
ghost use Rattle.order.specs.options.Options.{options_of};
ghost use Rattle.order.specs.Requires.{RowsIn};
ghost use Rattle.searching.specs.Reach.{need_more};
ghost use Rattle.planning.specs.Heights.{any_bad, heights_of};
ghost use Rattle.planning.specs.planwalk.Walk.{left_rows, right_rows, taken_by, written_by, turned_by, frame_from, held_from, walked, WalkIn, TurnIn, Stands};

use crate::Figures;
use crate::heights::height_at;
use buffer::pruning::need_more;
use frames::RowSlice;
use matchframe::turnrows::{from_row, last_prune};
use order::options::Rules;

// Where the walk stands: the left frames written and the rows in them; the right frames taken; the right rows held, from `from` on and below `to`; and the most that were held at once.
#[derive(Clone, Copy)]
pub struct Walk {
    pub lefts: usize,
    pub passed: usize,
    pub rights: usize,
    pub from: usize,
    pub to: usize,
    pub most: usize,
}

// The larger of two numbers.
fn larger(a: usize, b: usize) -> usize
    ensures { result ≡ max a b }
{
    if a < b {
        return b;
    }
    a
}

// A turn wants right rows, and gets the next frame, of h rows.
fn take_right(s: Walk, h: usize) -> Walk
    requires { (s.rights + 1 < 2 ^ 64) × (s.to + h < 2 ^ 64) × (s.from ≤ s.to) }
    ensures { result ≡ taken_by s h }
{
    let to = s.to + h;
    Walk {
        lefts: s.lefts,
        passed: s.passed,
        rights: s.rights + 1,
        from: s.from,
        to,
        most: larger(s.most, to - s.from),
    }
}

// A turn writes its left frame, of n rows, and drops d of the held rows.
fn write_left(s: Walk, n: usize, d: usize) -> Walk
    requires { (s.lefts + 1 < 2 ^ 64) × (s.passed + n < 2 ^ 64) × (s.from + d < 2 ^ 64) }
    ensures { result ≡ written_by s n d }
{
    Walk {
        lefts: s.lefts + 1,
        passed: s.passed + n,
        rights: s.rights,
        from: s.from + d,
        to: s.to,
        most: s.most,
    }
}

// Whether a turn takes a right frame: some is left, and the held rows do not suffice for its left frame.
fn wants(some: bool, left: RowSlice<'_>, right: RowSlice<'_>, rules: Rules<'_>) -> bool
    requires { RowsIn (options_of rules) left.width left.count left.values.now left.marks.now × RowsIn (options_of rules) right.width right.count right.values.now right.marks.now }
    ensures { result ≡ (some && need_more (options_of rules.entry) (rows_in left.entry) (rows_in right.entry)) }
{
    if !some {
        return false;
    }
    need_more(left, right, rules)
}

// One turn: it takes a right frame, of h rows, where some is left and wanted, else it writes its left frame, of n rows.
#[inline(always)]
pub fn take_turn(
    s: Walk,
    n: usize,
    some: bool,
    h: usize,
    left: RowSlice<'_>,
    right: RowSlice<'_>,
    rules: Rules<'_>,
) -> Walk
    requires { TurnIn (options_of rules) left.width left.values.now left.marks.now right.width right.values.now right.marks.now s n some h }
    ensures { result ≡ turned_by (options_of rules.entry) s n some h (frame_from left.entry.width left.entry.values.now left.entry.marks.now s n) (held_from right.entry.width right.entry.values.now right.entry.marks.now s) }
{
    let fv = from_row(left.values, s.passed, left.width);
    let fm = from_row(left.marks, s.passed, left.width);
    let kv = from_row(right.values, s.from, right.width);
    let km = from_row(right.marks, s.from, right.width);
    let held = s.to - s.from;
    if wants(
        some,
        RowSlice {
            values: fv,
            marks: fm,
            count: n,
            width: left.width,
        },
        RowSlice {
            values: kv,
            marks: km,
            count: held,
            width: right.width,
        },
        rules,
    ) {
        return take_right(s, h);
    }
    let d = last_prune(
        RowSlice {
            values: fv,
            marks: fm,
            count: n,
            width: left.width,
        },
        RowSlice {
            values: kv,
            marks: km,
            count: held,
            width: right.width,
        },
        rules,
    );
    write_left(s, n, d)
}

// Height i as a number, 0 behind the last.
fn height_or_none(heights: &[i64], i: usize) -> usize
    requires { any_bad heights.now ≡ false }
    ensures { result ≡ nat_abs (get_or heights.now i (pos 0)) }
{
    if i < heights.len() {
        return height_at(heights, i);
    }
    0
}

// The turn over the next frames of these heights.
fn step(
    s: Walk,
    left: RowSlice<'_>,
    hl: &[i64],
    right: RowSlice<'_>,
    hr: &[i64],
    rules: Rules<'_>,
) -> Walk
    requires { WalkIn (options_of rules) left.width hl.now left.values.now left.marks.now right.width hr.now right.values.now right.marks.now × Stands (options_of rules) (heights_of hl.now) (heights_of hr.now) (left_rows left.width hl.now left.values.now left.marks.now) (right_rows right.width hr.now right.values.now right.marks.now) s × (s.lefts < length hl.now) }
    ensures { Stands (options_of rules.entry) (heights_of hl.now) (heights_of hr.now) (left_rows left.entry.width hl.now left.entry.values.now left.entry.marks.now) (right_rows right.entry.width hr.now right.entry.values.now right.entry.marks.now) result × (result.lefts + result.rights ≡ suc (s.lefts + s.rights)) }
{
    let n = height_or_none(hl, s.lefts);
    let h = height_or_none(hr, s.rights);
    let some = s.rights < hr.len();
    take_turn(s, n, some, h, left, right, rules)
}

// The figures of the schedule over two sorted tables, c and w wide, cut in frames of these heights.
pub fn walk_frames(
    left: RowSlice<'_>,
    hl: &[i64],
    right: RowSlice<'_>,
    hr: &[i64],
    rules: Rules<'_>,
) -> Figures
    requires { WalkIn (options_of rules) left.width hl.now left.values.now left.marks.now right.width hr.now right.values.now right.marks.now }
    ensures { result ≡ walked (options_of rules.entry) hl.now hr.now (left_rows left.entry.width hl.now left.entry.values.now left.entry.marks.now) (right_rows right.entry.width hr.now right.entry.values.now right.entry.marks.now) }
{
    let mut s = Walk {
        lefts: 0,
        passed: 0,
        rights: 0,
        from: 0,
        to: 0,
        most: 0,
    };
    // A while: a turn writes a left frame only where it wants no right one.
    while s.lefts < hl.len() {
        s = step(s, left, hl, right, hr, rules);
    }
    Figures {
        rows: s.most,
        turns: s.lefts + s.rights,
        rights: s.rights,
    }
}
