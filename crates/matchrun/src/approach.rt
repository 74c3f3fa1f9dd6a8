// How the right cursor moves on for Nearest, over keys that do not fall: to the nearest key, three rows at a time.
ghost use Rattle.std.specs.Prelude.{◌≡◌, ◌&&◌, ◌+◌, ◌-◌, ◌*◌, ◌^◌, ◌<◌};
ghost use Rattle.frames.specs.Cells.{value};
ghost use Rattle.matching.specs.Match.{nearer};
ghost use Rattle.matching.specs.Moves.{NotAbove, Rising};
ghost use Rattle.matchrun.specs.advance.Below.{keyed, AtPlace};
ghost use Rattle.matchrun.specs.approach.Near.{closes, steps_on, Approached};

use crate::advance::{Position, choose};
use rows::cells::distance;

// Whether b, which is not below a and stands behind it, is as near to v as a, or nearer.
fn as_near(v: i64, b: i64, a: i64) -> bool
    ensures { NotAbove (value a) (value b) → result ≡ nearer (value v) (value b) (value a) }
{
    distance(b, v) <= distance(a, v)
}

// The row of at..end at which the cursor rests for v, looked for row by row: it moves on while the
// next key is as near as its own, or nearer. Each row that is passed is one move
// more than the `moved` moves made before.
fn creep(rv: &[i64], at: usize, p: usize, moved: usize, end: usize, w: usize, v: i64) -> Position
    requires at_place { AtPlace w end rv.now at p }
    requires at_lt_end { at < end }
    requires rising { Rising (keyed w (p - at * w) rv.now) at end }
    requires at_bound { moved + (end - at) < 2 ^ 64 }
    ensures { Approached w (p - at * w) at end rv.now v moved result }
{
    let mut place = p;
    let mut moves = moved;
    for row in at..end - 1 {
        let next = place + w;
        if !as_near(v, rv[next], rv[place]) {
            return Position { row, place, moves };
        }
        place = next;
        moves += 1;
    }
    Position {
        row: end - 1,
        place,
        moves,
    }
}

// `start` and one step more for each of two moves that the cursor makes for v, from the key a to b and from b to c.
fn settled(v: i64, a: i64, b: i64, c: i64, start: usize, step: usize) -> usize
    requires { NotAbove (value a) (value b) × NotAbove (value b) (value c) × (start + step + step < 2 ^ 64) }
    ensures { result ≡ start + steps_on (closes v a b) (closes v b c) * step }
{
    let y = distance(b, v);
    let one = start + step;
    let second = choose(distance(c, v) <= y, one + step, one);
    choose(y <= distance(a, v), second, start)
}

// Whether the cursor moves on for v over all of four keys: where the last is not above v; else the last move is asked first, as it is mostly not made.
fn closes_three(v: i64, a: i64, b: i64, c: i64, d: i64) -> bool
    requires { NotAbove (value a) (value b) × NotAbove (value b) (value c) × NotAbove (value c) (value d) }
    ensures { result ≡ (closes v a b && (closes v b c && closes v c d)) }
{
    if !(v < d) {
        return true;
    }
    let y = distance(b, v);
    let z = distance(c, v);
    if z < distance(d, v) {
        return false;
    }
    if y < z {
        return false;
    }
    y <= distance(a, v)
}

// The row of at..end at which the cursor rests for v, three rows at a time, in three moves: where
// it does not move on over all three, the row is chosen among them, with as many moves as rows are
// passed.
fn approach(rv: &[i64], at: usize, p: usize, moved: usize, end: usize, w: usize, v: i64) -> Position
    requires at_place { AtPlace w end rv.now at p }
    requires at_lt_end { at < end }
    requires rising { Rising (keyed w (p - at * w) rv.now) at end }
    requires at_bound { moved + (end - at) < 2 ^ 64 }
    ensures { Approached w (p - at * w) at end rv.now v moved result }
{
    let mut row = at;
    let mut place = p;
    let mut moves = moved;
    // A while: three rows a turn, and the last fewer than three begin where it stops.
    while 3 < end - row {
        let q = place + w;
        let r = q + w;
        let s = r + w;
        let a = rv[place];
        let b = rv[q];
        let c = rv[r];
        if !closes_three(v, a, b, c, rv[s]) {
            let passed = settled(v, a, b, c, 0, 1);
            row += passed;
            moves += passed;
            return Position {
                row: row,
                place: settled(v, a, b, c, place, w),
                moves: moves,
            };
        }
        row += 3;
        place = s;
        moves += 3;
    }
    creep(rv, row, place, moves, end, w, v)
}

// The row of at..end at which the cursor rests for v: looked for row by row where the right rows are few, since three together are then never there.
pub fn come_near(
    rv: &[i64],
    at: usize,
    p: usize,
    moved: usize,
    end: usize,
    w: usize,
    v: i64,
    few: bool,
) -> Position
    requires at_place { AtPlace w end rv.now at p }
    requires at_lt_end { at < end }
    requires rising { Rising (keyed w (p - at * w) rv.now) at end }
    requires at_bound { moved + (end - at) < 2 ^ 64 }
    ensures { Approached w (p - at * w) at end rv.now v moved result }
{
    if few {
        return creep(rv, at, p, moved, end, w, v);
    }
    approach(rv, at, p, moved, end, w, v)
}
