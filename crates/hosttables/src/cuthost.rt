// Where a table is cut, in numbers.
ghost use Rattle.hosttables.specs.cuthost.Calls.{HostCutContract};

use cutting::cutcall::cut;
use ffi::codes::{both, flag_of, is_flag};
use ffi::hostoptions::{HostOptions, is_options, options_of};
use frames::refusals::Refusal;
use tables::tableresults::HostWritten;

// Tells where a table is cut for each boundary. Numbers that tell no options or no side are refused by 1, before any word is looked at.
pub fn cut_host(
    h: HostOptions,
    right: u64,
    table: &[i64],
    boundaries: &[i64],
    out: &mut [i64],
) -> HostWritten
    ensures { HostCutContract h right table.now boundaries.now out.old result out.new }
{
    if both(is_options(h), is_flag(right)) {
        return HostWritten::from(cut(table, boundaries, flag_of(right), options_of(h), out));
    }
    HostWritten::from(Err(Refusal::BadOptions))
}
