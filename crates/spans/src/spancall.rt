// The call over points and intervals: what it is handed is judged, and the pairs are written as a table.
ghost use Rattle.spans.specs.PairRows.{CoverContract};
ghost use Rattle.spans.specs.Calls.{SpanContract};
ghost use Rattle.spans.specs.Requires.{PointsIn, IntervalsIn};

use crate::Bounds;
use crate::pairing::{count_pairs, put_pairs};
use crate::pointsearch::ascending_points;
use frames::RowSlice;
use frames::refusals::Refusal;
use rows::framerule::{is_frame, row_count};
use tables::put_head;

// The pairs of points and intervals, written as a table; refused by 16 where the points cannot be searched, by 6 where the output is too short.
fn cover(
    points: RowSlice<'_>,
    intervals: RowSlice<'_>,
    b: Bounds,
    out: &mut [i64],
) -> Result<usize, Refusal>
    requires { PointsIn points.count points.values.now points.marks.now × IntervalsIn intervals.count intervals.values.now intervals.marks.now }
    ensures { CoverContract b points.entry.count points.entry.values.now points.entry.marks.now intervals.entry.count intervals.entry.values.now intervals.entry.marks.now out.old result out.new }
{
    if !ascending_points(points) {
        return Err(Refusal::BadPoints);
    }
    let k = count_pairs(points, intervals, b);
    if out.len() < 2 + 4 * k {
        return Err(Refusal::NoRoom);
    }
    put_pairs(points, intervals, b, 2 * k, out);
    put_head(out, k, 2);
    Ok(k)
}

// Lists which points each interval covers: a table of the numbers of the two rows, interval by interval.
pub fn spans(
    points: &[i64],
    intervals: &[i64],
    b: Bounds,
    out: &mut [i64],
) -> Result<usize, Refusal>
    ensures { SpanContract b points.now intervals.now out.old result out.new }
{
    if !is_frame(points, 1) {
        return Err(Refusal::BadFrame);
    }
    if !is_frame(intervals, 2) {
        return Err(Refusal::BadFrame);
    }
    let n = row_count(points);
    let m = row_count(intervals);
    let e = 2 + n;
    let f = 2 + 2 * m;
    cover(
        RowSlice {
            values: &points[2..e],
            marks: &points[e..],
            count: n,
            width: 1,
        },
        RowSlice {
            values: &intervals[2..f],
            marks: &intervals[f..],
            count: m,
            width: 2,
        },
        b,
        out,
    )
}
