// What the calls answer, in numbers.
ghost use Rattle.std.specs.Prelude.{◌≡◌};
ghost use Rattle.frames.specs.declared.refusals.Refusal.TheVariants.{BadJoin};
ghost use Rattle.ffi.specs.convert.Convert.{encode};
ghost use Rattle.ffi.specs.results.Results.{took_host, ported_host, ran_host, refused_run, fresh_host};

use crate::codes::{stop_code, stop_refusal, took_code};
use crate::convert::{HostJoin, LAYOUT};
use crate::hostoptions::HostOptions;
use frames::outcomes::Ports;
use frames::refusals::Refusal;
use node::runs::RanJoin;
use node::{PortedJoin, TookJoin};
use rows::keyed::no_row;

// The answer of opening, of a left or right frame, and of the end of right: refusal is 0 where the call was accepted.
#[repr(C)]
#[derive(Clone, Copy)]
pub struct HostTook {
    pub refusal: u64,
    pub join: HostJoin,
}

// The answer of a port call: what left, right and send are told, 0 Blocked, 1 Ready, 2 Done.
#[repr(C)]
#[derive(Clone, Copy)]
pub struct HostPorted {
    pub refusal: u64,
    pub left: u64,
    pub right: u64,
    pub send: u64,
    pub join: HostJoin,
}

// The answer of a turn: 0 wrote, 1 wants right, 2 idle, 3 refused.
#[repr(C)]
#[derive(Clone, Copy)]
pub struct HostTurned {
    pub answer: u64,
    pub refusal: u64,
    pub sequence: u64,
    pub join: HostJoin,
}

// What a run made: the turns that wrote and the words that they wrote back to back; stop is 0 its turns are used, 1 wants right, 2 idle, 3 refused.
#[repr(C)]
#[derive(Clone, Copy)]
pub struct HostRan {
    pub turns: usize,
    pub words: usize,
    pub stop: u64,
    pub refusal: u64,
    pub join: HostJoin,
}

// A fresh join with any options.
pub fn fresh_host(o: HostOptions) -> HostJoin
    ensures { result ≡ fresh_host o }
{
    let rising = [0; 64];
    HostJoin {
        layout: LAYOUT,
        options: o,
        rising,
        base: 0,
        held: 0,
        pruned: 0,
        queue_start: 0,
        queue_words: 0,
        state: 0,
        right_ended: 0,
        failed: 0,
        sequence: 0,
        last_left: no_row().into(),
        last_right: no_row().into(),
    }
}

// Numbers that are no join: refused as 2, and handed back.
pub fn bad_took(h: HostJoin) -> HostTook
    ensures { result ≡ took_host (Err BadJoin) h }
{
    HostTook {
        refusal: 2,
        join: h,
    }
}

// The answer of opening, of a frame or of the end of right.
impl From<TookJoin> for HostTook {
    ghost from_gives = { λ t numbers. numbers ≡ took_host t.answer (encode t.join) };

    fn from(t: TookJoin) -> HostTook {
        HostTook {
            refusal: took_code(t.answer),
            join: t.join.into(),
        }
    }
}

// The same of a port call.
pub fn bad_ported(h: HostJoin) -> HostPorted
    ensures { result ≡ ported_host (Err BadJoin) h }
{
    HostPorted {
        refusal: 2,
        left: 0,
        right: 0,
        send: 0,
        join: h,
    }
}

// The answer of a port call.
impl From<PortedJoin> for HostPorted {
    ghost from_gives = { λ p numbers. numbers ≡ ported_host p.answer (encode p.join) };

    fn from(p: PortedJoin) -> HostPorted {
        let join = p.join.into();
        match p.answer {
            Ok(ports) => HostPorted {
                refusal: 0,
                left: ports.left.into(),
                right: ports.right.into(),
                send: ports.send.into(),
                join,
            },
            Err(n) => HostPorted {
                refusal: n.into(),
                left: 0,
                right: 0,
                send: 0,
                join,
            },
        }
    }
}

// The same of a run.
pub fn bad_ran(h: HostJoin) -> HostRan
    ensures { result ≡ ran_host refused_run h }
{
    HostRan {
        turns: 0,
        words: 0,
        stop: 3,
        refusal: 2,
        join: h,
    }
}

// What a run made.
impl From<RanJoin> for HostRan {
    ghost from_gives = { λ t numbers. numbers ≡ ran_host (record { turns = t.turns; words = t.words; stop = t.stop }) (encode t.join) };

    fn from(t: RanJoin) -> HostRan {
        HostRan {
            turns: t.turns,
            words: t.words,
            stop: stop_code(t.stop),
            refusal: stop_refusal(t.stop),
            join: t.join.into(),
        }
    }
}
