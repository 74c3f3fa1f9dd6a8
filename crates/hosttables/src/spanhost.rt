// The call over points and intervals, in numbers.
ghost use Rattle.hosttables.specs.spanhost.Call.{HostSpanContract};

use ffi::codes::{both, flag_of, is_flag};
use frames::refusals::Refusal;
use spans::Bounds;
use spans::spancall::spans;
use tables::tableresults::HostWritten;

// Lists which points each interval covers. A choice of bounds that is neither 0 nor 1 is refused by 1, before any word is looked at.
pub fn spans_host(
    points: &[i64],
    intervals: &[i64],
    lower: u64,
    upper: u64,
    out: &mut [i64],
) -> HostWritten
    ensures { HostSpanContract lower upper points.now intervals.now out.old result out.new }
{
    if !both(is_flag(lower), is_flag(upper)) {
        return HostWritten::from(Err(Refusal::BadOptions));
    }
    let b = Bounds {
        lower_in: flag_of(lower),
        upper_in: flag_of(upper),
    };
    HostWritten::from(spans(points, intervals, b, out))
}
