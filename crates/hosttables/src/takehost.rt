// The calls over takings, in numbers.
ghost use Rattle.std.specs.Prelude.{◌≡◌};
ghost use Rattle.hosttables.specs.takehost.Calls.{taken_host, HostAddContract, HostJoinContract};

use ffi::hostoptions::{HostOptions, is_options, options_of};
use frames::refusals::Refusal;
use sales::addcall::add_sales;
use subtotals::joincall::join_takings;
use takings::Taken;

// The answer of a call over takings: refusal is 0, with the table's rows and the number beside it; or the refusal's number, with no row and 0.
#[repr(C)]
#[derive(Clone, Copy)]
pub struct HostTaken {
    pub refusal: u64,
    pub rows: usize,
    pub number: i64,
}

// The answer in numbers.
impl From<Result<Taken, Refusal>> for HostTaken {
    ghost from_gives = { λ answer numbers. numbers ≡ taken_host answer };

    fn from(answer: Result<Taken, Refusal>) -> HostTaken {
        match answer {
            Ok(taken) => HostTaken {
                refusal: 0,
                rows: taken.rows,
                number: taken.number,
            },
            Err(refusal) => HostTaken {
                refusal: refusal.into(),
                rows: 0,
                number: 0,
            },
        }
    }
}

// Adds a frame's sales to a table. Numbers that tell no options are refused by 1, before any word is looked at.
pub fn add_host(
    h: HostOptions,
    table: &[i64],
    number: i64,
    left: &[i64],
    answers: &[i64],
    out: &mut [i64],
) -> HostTaken
    ensures { HostAddContract h table.now number left.now answers.now out.old result out.new }
{
    if is_options(h) {
        return HostTaken::from(add_sales(table, number, left, answers, options_of(h), out));
    }
    HostTaken::from(Err(Refusal::BadOptions))
}

// Joins two tables of subtotals. Numbers that tell no options are refused by 1, before any word is looked at.
pub fn join_host(
    h: HostOptions,
    table: &[i64],
    number: i64,
    other: &[i64],
    other_number: i64,
    out: &mut [i64],
) -> HostTaken
    ensures { HostJoinContract h table.now number other.now other_number out.old result out.new }
{
    if is_options(h) {
        return HostTaken::from(join_takings(
            table,
            number,
            other,
            other_number,
            options_of(h),
            out,
        ));
    }
    HostTaken::from(Err(Refusal::BadOptions))
}
