// The pairs of points and intervals: how many they are, and how their cells are written.
ghost use Rattle.std.specs.Prelude.{◌≡◌, map, ◌+◌, ◌-◌, ◌^◌, ◌<◌, length};
ghost use Rattle.tables.specs.Lay.{CellRoom, flat, lay_cells};
ghost use Rattle.spans.specs.Span.{pair_row};
ghost use Rattle.spans.specs.Port.{up_from};
ghost use Rattle.spans.specs.Requires.{PointsIn, IntervalsIn, ported, StretchRoom, PairsRoom};

use crate::Bounds;
use crate::pointsearch::points_of;
use frames::RowSlice;
use tables::put_cell;

// How many pairs there are.
pub fn count_pairs(points: RowSlice<'_>, intervals: RowSlice<'_>, b: Bounds) -> usize
    requires { PointsIn points.count points.values.now points.marks.now × IntervalsIn intervals.count intervals.values.now intervals.marks.now }
    ensures { (result ≡ length (ported b points.entry.count points.entry.values.now points.entry.marks.now intervals.entry.count intervals.entry.values.now intervals.entry.marks.now)) × (result < 2 ^ 32) }
{
    let mut count = 0;
    for i in 0..intervals.count {
        let found = points_of(points, intervals, i * 2, b);
        count += found.end - found.start;
    }
    count
}

// The pair of interval i and point j goes to cells k and k + 1, of `cells`.
fn put_pair(out: &mut [i64], cells: usize, k: usize, i: usize, j: usize)
    requires { CellRoom cells (k + 1) out.old × (i < 2 ^ 63) × (j < 2 ^ 63) }
    ensures { out.new ≡ lay_cells cells k (pair_row i j) out.old }
{
    put_cell(out, cells, k, i as i64, 1);
    put_cell(out, cells, k + 1, j as i64, 1);
}

// The pairs of interval i and the points start..end go to the cells from `from` on.
fn put_stretch(out: &mut [i64], cells: usize, from: usize, i: usize, start: usize, end: usize)
    requires { StretchRoom cells from i start end out.old }
    ensures { out.new ≡ lay_cells cells from (flat (map (pair_row i) (up_from start (end - start)))) out.old }
{
    let mut k = from;
    for j in start..end {
        put_pair(out, cells, k, i, j);
        k += 2;
    }
}

// All pairs, which have so many cells.
pub fn put_pairs(
    points: RowSlice<'_>,
    intervals: RowSlice<'_>,
    b: Bounds,
    cells: usize,
    out: &mut [i64],
)
    requires { PairsRoom b points.count points.values.now points.marks.now intervals.count intervals.values.now intervals.marks.now cells out.old }
    ensures { out.new ≡ lay_cells cells 0 (flat (ported b points.entry.count points.entry.values.now points.entry.marks.now intervals.entry.count intervals.entry.values.now intervals.entry.marks.now)) out.old }
{
    let mut k = 0;
    for i in 0..intervals.count {
        let r = points_of(points, intervals, i * 2, b);
        put_stretch(out, cells, k, i, r.start, r.end);
        k += 2 * (r.end - r.start);
    }
}
