// The plan of two tables, in numbers.
ghost use Rattle.std.specs.Prelude.{◌≡◌};
ghost use Rattle.hosttables.specs.planhost.Call.{planned_host, plan_host};

use ffi::hostoptions::{HostOptions, is_options, options_of};
use frames::refusals::Refusal;
use planning::Figures;
use planning::plancall::plan;

// The answer of a plan: refusal is 0 and the figures are there, or the refusal's number and no figure.
#[repr(C)]
#[derive(Clone, Copy)]
pub struct HostPlanned {
    pub refusal: u64,
    pub rows: usize,
    pub turns: usize,
    pub rights: usize,
}

// The answer in numbers.
impl From<Result<Figures, Refusal>> for HostPlanned {
    ghost from_gives = { λ answer numbers. numbers ≡ planned_host answer };

    fn from(answer: Result<Figures, Refusal>) -> HostPlanned {
        match answer {
            Ok(figures) => HostPlanned {
                refusal: 0,
                rows: figures.rows,
                turns: figures.turns,
                rights: figures.rights,
            },
            Err(refusal) => HostPlanned {
                refusal: refusal.into(),
                rows: 0,
                turns: 0,
                rights: 0,
            },
        }
    }
}

// Works out the figures of a schedule. Numbers that tell no options are refused by 1, before any word is looked at.
pub fn plan_host(h: HostOptions, left: &[i64], right: &[i64], hl: &[i64], hr: &[i64]) -> HostPlanned
    ensures { result ≡ planned_host (plan_host h left.now right.now hl.now hr.now) }
{
    if is_options(h) {
        return HostPlanned::from(plan(left, right, options_of(h), hl, hr));
    }
    HostPlanned::from(Err(Refusal::BadOptions))
}
