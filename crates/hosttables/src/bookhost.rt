// The calls over books, in numbers.
ghost use Rattle.hosttables.specs.bookhost.Calls.{HostMergeContract, HostStandContract};

use books::bookmerge::merge;
use books::noticecall::standing;
use ffi::hostoptions::{HostOptions, is_options, options_of};
use frames::refusals::Refusal;
use tables::tableresults::HostWritten;

// Merges two books. Numbers that tell no options are refused by 1, before any word is looked at.
pub fn merge_host(h: HostOptions, house: &[i64], festival: &[i64], out: &mut [i64]) -> HostWritten
    ensures { HostMergeContract h house.now festival.now out.old result out.new }
{
    if is_options(h) {
        return HostWritten::from(merge(house, festival, options_of(h), out));
    }
    HostWritten::from(Err(Refusal::BadOptions))
}

// Says of each row of a book whether it stands, and which row it names. Numbers that tell no options are refused by 1, before any word is looked at.
pub fn standing_host(h: HostOptions, book: &[i64], place: usize, out: &mut [i64]) -> HostWritten
    ensures { HostStandContract h place book.now out.old result out.new }
{
    if is_options(h) {
        return HostWritten::from(standing(book, place, options_of(h), out));
    }
    HostWritten::from(Err(Refusal::BadOptions))
}
