// Two sorted tables joined pair by pair at boundaries, in numbers.
ghost use Rattle.std.specs.Prelude.{length};
ghost use Rattle.hosttables.specs.cutjoinhost.Calls.{HostPairsContract};

use cutting::cutjoin::join_cut;
use ffi::hostoptions::{HostOptions, is_options, options_of};
use frames::refusals::Refusal;
use tables::tableresults::HostWritten;

// Joins two tables, cut at boundaries. Numbers that tell no options are refused by 1, before any word is looked at.
pub fn join_cut_host(
    h: HostOptions,
    left: &[i64],
    right: &[i64],
    boundaries: &[i64],
    left_area: &[i64],
    right_area: &[i64],
    out: &mut [i64],
) -> HostWritten
    ensures { HostPairsContract h left.now right.now boundaries.now (length left_area.now) (length right_area.now) out.old result out.new }
{
    if is_options(h) {
        return HostWritten::from(join_cut(
            left,
            right,
            boundaries,
            left_area,
            right_area,
            options_of(h),
            out,
        ));
    }
    HostWritten::from(Err(Refusal::BadOptions))
}
