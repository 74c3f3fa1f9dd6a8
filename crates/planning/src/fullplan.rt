// The first figure of a plan in full frames: as many of 4,096 rows as there are, then one with what is left over.
ghost use Rattle.std.specs.Prelude.{◌≡◌, suc, ◌+◌, ◌<◌, min};
ghost use Rattle.order.specs.options.Options.{options_of};
ghost use Rattle.frames.specs.Cells.{rows_in};
ghost use Rattle.order.specs.Requires.{TableIn};
ghost use Rattle.planning.specs.Plan.{plan};
ghost use Rattle.planning.specs.Heights.{full_frames};
ghost use Rattle.planning.specs.fullplan.Full.{FullStands};

use crate::planwalk::{Walk, take_turn};
use frames::RowSlice;
use order::options::Rules;

// As many rows as a frame can have.
const FULL: usize = 4096;

// The height of the next full frame, of n rows that are left.
fn full_height(n: usize) -> usize
    ensures { result ≡ min 4096 n }
{
    if n < FULL {
        return n;
    }
    FULL
}

// The turn over the next full frames.
fn full_turn(s: Walk, left: RowSlice<'_>, right: RowSlice<'_>, rules: Rules<'_>) -> Walk
    requires { TableIn (options_of rules) left.width left.count left.values.now left.marks.now × TableIn (options_of rules) right.width right.count right.values.now right.marks.now × FullStands (options_of rules) left.count right.count (rows_in left) (rows_in right) s × (s.passed < left.count) }
    ensures { FullStands (options_of rules.entry) left.entry.count right.entry.count (rows_in left.entry) (rows_in right.entry) result × (result.lefts + result.rights ≡ suc (s.lefts + s.rights)) }
{
    let n = full_height(left.count - s.passed);
    let h = full_height(right.count - s.to);
    let some = s.to < right.count;
    take_turn(s, n, some, h, left, right, rules)
}

// The most right rows that the schedule over two sorted tables, c and w wide, holds at once.
pub fn most_held(left: RowSlice<'_>, right: RowSlice<'_>, rules: Rules<'_>) -> usize
    requires { TableIn (options_of rules) left.width left.count left.values.now left.marks.now × TableIn (options_of rules) right.width right.count right.values.now right.marks.now }
    ensures { result ≡ (plan (options_of rules.entry) (full_frames (rows_in left.entry)) (full_frames (rows_in right.entry))).rows }
{
    let mut s = Walk {
        lefts: 0,
        passed: 0,
        rights: 0,
        from: 0,
        to: 0,
        most: 0,
    };
    // A while: a turn passes left rows only where it wants no right ones.
    while s.passed < left.count {
        s = full_turn(s, left, right, rules);
    }
    s.most
}
