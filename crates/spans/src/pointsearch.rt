// The points: whether they are in order, the searches among them, and those inside the bounds of one interval.
ghost use Rattle.std.specs.Prelude.{◌≡◌, not, ◌&&◌, ◌+◌, ◌≤◌};
ghost use Rattle.frames.specs.Cells.{is_null, rows_of};
ghost use Rattle.order.specs.options.Options.{key_rule};
ghost use Rattle.order.specs.Order.{cmp_cell, is_greater};
ghost use Rattle.order.specs.Requires.{cell_at};
ghost use Rattle.spans.specs.Span.{ascending_points};
ghost use Rattle.spans.specs.Port.{seek_lower, seek_upper, search_sorted};
ghost use Rattle.spans.specs.Requires.{PointsIn, BoundsIn, Matched};

use crate::Bounds;
use buffer::bisect::find;
use frames::RowSlice;
use rows::cells::cmp_cell;
use rows::keyed::null_at;
use searching::{Seek, Stretch};

// Whether point i is not null and not greater than the next.
fn before_next(points: RowSlice<'_>, i: usize) -> bool
    requires { BoundsIn i points.values.now points.marks.now }
    ensures { result ≡ (not (is_null (cell_at i points.entry.values.now points.entry.marks.now)) && not (is_greater (cmp_cell key_rule (cell_at i points.entry.values.now points.entry.marks.now) (cell_at (i + 1) points.entry.values.now points.entry.marks.now)))) }
{
    if null_at(points.marks, i) {
        return false;
    }
    let k = i + 1;
    !cmp_cell(
        points.values[i],
        points.marks[i],
        points.values[k],
        points.marks[k],
        false,
        false,
    )
    .is_gt()
}

// Whether no point is null and none is greater than the next.
pub fn ascending_points(points: RowSlice<'_>) -> bool
    requires { PointsIn points.count points.values.now points.marks.now }
    ensures { result ≡ ascending_points (rows_of 1 points.entry.count points.entry.values.now points.entry.marks.now) }
{
    if points.count == 0 {
        return true;
    }
    let last = points.count - 1;
    for i in 0..last {
        if !before_next(points, i) {
            return false;
        }
    }
    !null_at(points.marks, last)
}

// The first point that is at least v, or above it; the points' number where there is none.
fn search_sorted(seek: Seek, v: i64, points: RowSlice<'_>) -> usize
    requires { PointsIn points.count points.values.now points.marks.now }
    ensures { (result ≡ search_sorted seek v (rows_of 1 points.entry.count points.entry.values.now points.entry.marks.now)) × (result ≤ points.entry.count) }
{
    find(
        seek,
        false,
        false,
        &[],
        &[],
        0,
        v,
        1,
        RowSlice { width: 1, ..points },
        0,
        points.count,
    )
}

// What the search for the start looks for: a point that is at least an inclusive lower bound, or above an exclusive one.
fn seek_lower(b: Bounds) -> Seek
    ensures { result ≡ seek_lower b }
{
    if b.lower_in {
        return Seek::AtLeast;
    }
    Seek::Above
}

// And the search for the end: a point that is above an inclusive upper bound, or at least an exclusive one.
fn seek_upper(b: Bounds) -> Seek
    ensures { result ≡ seek_upper b }
{
    if b.upper_in {
        return Seek::Above;
    }
    Seek::AtLeast
}

// The points of the interval at place p; none where a bound is null.
pub fn points_of(points: RowSlice<'_>, intervals: RowSlice<'_>, p: usize, b: Bounds) -> Stretch
    requires { PointsIn points.count points.values.now points.marks.now × BoundsIn p intervals.values.now intervals.marks.now }
    ensures { Matched b points.entry.count points.entry.values.now points.entry.marks.now (cell_at p intervals.entry.values.now intervals.entry.marks.now) (cell_at (p + 1) intervals.entry.values.now intervals.entry.marks.now) result }
{
    let q = p + 1;
    if null_at(intervals.marks, p) {
        return Stretch { start: 0, end: 0 };
    }
    if null_at(intervals.marks, q) {
        return Stretch { start: 0, end: 0 };
    }
    let start = search_sorted(seek_lower(b), intervals.values[p], points);
    let end = search_sorted(seek_upper(b), intervals.values[q], points);
    if end < start {
        return Stretch { start, end: start };
    }
    Stretch { start, end }
}
