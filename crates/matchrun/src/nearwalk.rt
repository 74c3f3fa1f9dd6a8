// Nearest over a sorted left run and a sorted right run in which every row has a key: one cursor each, which only moves forward.
ghost use Rattle.std.specs.Prelude.{◌≡◌, ◌<◌};
ghost use Rattle.order.specs.options.Options.{without_list, strategy_of};
ghost use Rattle.order.specs.declared.options.Strategy.TheVariants.{Nearest};
ghost use Rattle.matchrun.specs.walk.Keyed.{KeysRoom, Walked};

use crate::approach::come_near;
use crate::choices::{near_row, put};
use frames::RowSlice;
use order::options::Terms;

// Left rows from..to, each matched to the nearest right row of at..end, of which there is one: the one at which the cursor rests. How many moves the cursors made.
pub fn nearest(
    left: RowSlice<'_>,
    m: usize,
    from: usize,
    to: usize,
    right: RowSlice<'_>,
    at: usize,
    end: usize,
    number: usize,
    o: Terms,
    out: &mut [i64],
) -> usize
    requires { KeysRoom (without_list o) left.width m left.values.now from to right.width right.values.now at end number out.old × (strategy_of (without_list o) ≡ Nearest) × (at < end) }
    ensures { Walked (without_list o) left.entry.width m left.entry.values.now from to right.entry.width right.entry.values.now at end number out.old result out.new }
{
    let by = o.by;
    let few = end - at <= 3;
    let mut row = at;
    let mut place = at * right.width + by;
    let mut p = from * left.width + by;
    let mut moves = 0;
    for i in from..to {
        let v = left.values[p];
        let c = come_near(right.values, row, place, moves, end, right.width, v, few);
        row = c.row;
        place = c.place;
        moves = c.moves;
        let choice = near_row(right.values, place, v, o.tolerance, number + row);
        put(out, m, i, choice);
        p += left.width;
        moves += 1;
    }
    moves
}
