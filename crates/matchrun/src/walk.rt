// Backward and Forward over a sorted left run and a sorted right run in which every row has a key: one cursor each, which only moves forward.
ghost use Rattle.std.specs.Prelude.{◌≡◌, ℕ, ◌+◌, ◌-◌, ◌*◌, ◌^◌, ◌≤◌, ◌<◌, pos, length, get_or};
ghost use Rattle.std.specs.Int.Signed.{lt_z};
ghost use Rattle.order.specs.options.Options.{without_list, strategy_of};
ghost use Rattle.order.specs.declared.options.Strategy.TheVariants.{Backward, Forward};
ghost use Rattle.matching.specs.Loops.{Small};
ghost use Rattle.matching.specs.Moves.{Rising};
ghost use Rattle.matchrun.specs.advance.Below.{value_at, keyed, HasNext};
ghost use Rattle.matchrun.specs.choices.Choices.{unless_far};
ghost use Rattle.matchrun.specs.walk.Keyed.{KeysRoom, Walked};

use crate::advance::advance;
use crate::choices::{near_row, put};
use frames::RowSlice;
use order::options::Terms;

// Whether v is the greatest word: then there is no next one.
fn is_greatest(v: i64) -> bool
    ensures { result ≡ lt_z (pos 9223372036854775806) v }
{
    9223372036854775806 < v
}

// Up to which row of at..end a walk of left rows from..to takes four rows at a time: none where the left rows are many beside the right ones, or where the last left key, which no other is above, is the greatest word.
fn fours_to(
    lv: &[i64],
    wl: usize,
    by: usize,
    from: usize,
    to: usize,
    at: usize,
    end: usize,
) -> usize
    requires { (by < wl) × (to * wl ≤ length lv.now) × (from ≤ to) × (at ≤ end) × Rising (keyed wl by lv.now) from to }
    ensures { (result ≤ end) × (at + 3 < result → (k : ℕ) → from ≤ k → k < to → HasNext (value_at wl by lv.now k)) }
{
    if end - at < (to - from) / 4 {
        return at;
    }
    if from == to {
        return at;
    }
    let last = (to - 1) * wl + by;
    if is_greatest(lv[last]) {
        return at;
    }
    end
}

// The choice for v where rows at..c are those on its side: the last of them.
fn choice_back(
    rv: &[i64],
    at: usize,
    c: usize,
    k: usize,
    w: usize,
    v: i64,
    tolerance: i64,
    number: usize,
) -> Option<usize>
    requires { (at ≤ c) × (at < c → w ≤ k) × (at < c → k - w < length rv.now) × (number + c < 2 ^ 63) }
    ensures { Small result × (c ≡ at → result ≡ None) × (at < c → result ≡ unless_far tolerance v (get_or rv.now (k - w) (pos 0)) (number + (c - 1))) }
{
    if c == at {
        return None;
    }
    near_row(rv, k - w, v, tolerance, number + (c - 1))
}

// The choice for v where rows c..end are those on its side: the first of them.
fn choice_fore(
    rv: &[i64],
    c: usize,
    end: usize,
    k: usize,
    v: i64,
    tolerance: i64,
    number: usize,
) -> Option<usize>
    requires { (c ≤ end) × (c < end → k < length rv.now) × (number + c < 2 ^ 63) }
    ensures { Small result × (c ≡ end → result ≡ None) × (c < end → result ≡ unless_far tolerance v (get_or rv.now k (pos 0)) (number + c)) }
{
    if c == end {
        return None;
    }
    near_row(rv, k, v, tolerance, number + c)
}

// Left rows from..to, each matched to the last right row of at..end on its side: the one before the cursor. How many moves the cursors made.
pub fn backward(
    left: RowSlice<'_>,
    m: usize,
    from: usize,
    to: usize,
    right: RowSlice<'_>,
    at: usize,
    end: usize,
    number: usize,
    o: Terms,
    out: &mut [i64],
) -> usize
    requires { KeysRoom (without_list o) left.width m left.values.now from to right.width right.values.now at end number out.old × (strategy_of (without_list o) ≡ Backward) }
    ensures { Walked (without_list o) left.entry.width m left.entry.values.now from to right.entry.width right.entry.values.now at end number out.old result out.new }
{
    let by = o.by;
    let stop = fours_to(left.values, left.width, by, from, to, at, end);
    let start = at * right.width + by;
    let mut row = at;
    let mut place = start;
    let mut p = from * left.width + by;
    let mut moves = 0;
    for i in from..to {
        let v = left.values[p];
        let c = advance(
            right.values,
            row,
            place,
            moves,
            stop,
            end,
            right.width,
            v,
            o.allow_eq,
        );
        row = c.row;
        place = c.place;
        moves = c.moves;
        let choice = choice_back(
            right.values,
            at,
            row,
            place,
            right.width,
            v,
            o.tolerance,
            number,
        );
        put(out, m, i, choice);
        p += left.width;
        moves += 1;
    }
    moves
}

// Left rows from..to, each matched to the first right row of at..end on its side: the one at the cursor. How many moves the cursors made.
pub fn forward(
    left: RowSlice<'_>,
    m: usize,
    from: usize,
    to: usize,
    right: RowSlice<'_>,
    at: usize,
    end: usize,
    number: usize,
    o: Terms,
    out: &mut [i64],
) -> usize
    requires { KeysRoom (without_list o) left.width m left.values.now from to right.width right.values.now at end number out.old × (strategy_of (without_list o) ≡ Forward) }
    ensures { Walked (without_list o) left.entry.width m left.entry.values.now from to right.entry.width right.entry.values.now at end number out.old result out.new }
{
    let by = o.by;
    let stop = fours_to(left.values, left.width, by, from, to, at, end);
    let mut row = at;
    let mut place = at * right.width + by;
    let mut p = from * left.width + by;
    let mut moves = 0;
    for i in from..to {
        let v = left.values[p];
        let c = advance(
            right.values,
            row,
            place,
            moves,
            stop,
            end,
            right.width,
            v,
            !o.allow_eq,
        );
        row = c.row;
        place = c.place;
        moves = c.moves;
        let choice = choice_fore(right.values, row, end, place, v, o.tolerance, number);
        put(out, m, i, choice);
        p += left.width;
        moves += 1;
    }
    moves
}
