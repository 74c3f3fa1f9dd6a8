// Opening, frames and the end of right, over structs of numbers. A frame's call reads what it needs of the numbers where they lie, and hands them back with those changed that the call changes.
ghost use Rattle.std.specs.Prelude.{◌≡◌, true};
ghost use Rattle.ffi.specs.convert.Convert.{is_join};
ghost use Rattle.ffi.specs.results.Results.{took_host};
ghost use Rattle.hostjoin.specs.hostfeed.Fed.{queue_in, held_in};
ghost use Rattle.hostcalls.specs.CallContracts.{HostOpenContract, HostLeftContract, HostRightContract, HostEndContract};

use callrules::consistency::bad_numbers;
use callrules::intake::{feed_left, feed_right};
use callrules::{FedLeft, FedRight};
use ffi::codes::{flag_of, state_of, took_code};
use ffi::convert::{HostJoin, is_join, join_of};
use ffi::hostoptions::{HostOptions, is_options, options_of, terms_from};
use ffi::results::{HostTook, bad_took, fresh_host};
use node::Join;
use order::options::Rules;

// Opens a join. The join of a refused opening holds the options that came, and every call but a run of no turns answers 2 to it.
pub fn host_open(h: HostOptions) -> HostTook
    ensures { HostOpenContract h result }
{
    if is_options(h) {
        return Join::open(options_of(h)).into();
    }
    HostTook {
        refusal: 1,
        join: fresh_host(h),
    }
}

// What a left frame makes of the queue of a join in numbers, which are read where they lie.
fn left_fed(h: HostJoin, left: &mut [i64], right: &[i64], frame: &[i64]) -> FedLeft
    requires { is_join h ≡ true }
    ensures { HostLeftContract h left.old right.now frame.now (took_host result.answer (queue_in h result.start result.words)) left.new }
{
    let rising = h.rising;
    let rules = Rules {
        terms: terms_from(h.options),
        codes: &h.options.ranks.codes,
        rising: &rising,
    };
    let bad = bad_numbers(
        rules,
        h.base,
        h.held,
        h.pruned,
        h.queue_start,
        h.queue_words,
        h.sequence,
        left,
        right,
    );
    feed_left(
        bad,
        flag_of(h.failed),
        state_of(h.state),
        rules,
        h.queue_start,
        h.queue_words,
        left,
        frame,
    )
}

// Takes a left frame into the left area, behind those that wait. Numbers that are no join are handed back as they came.
pub fn host_left(mut h: HostJoin, left: &mut [i64], right: &[i64], frame: &[i64]) -> HostTook
    ensures { HostLeftContract h left.old right.now frame.now result left.new }
{
    let mut refusal = 2;
    if is_join(h) {
        let fed = left_fed(h, left, right, frame);
        h.queue_start = fed.start;
        h.queue_words = fed.words;
        refusal = took_code(fed.answer);
    }
    HostTook { refusal, join: h }
}

// What a right frame makes of the held rows of a join in numbers, which are read where they lie.
fn right_fed(h: HostJoin, left: &[i64], right: &mut [i64], frame: &[i64]) -> FedRight
    requires { is_join h ≡ true }
    ensures { HostRightContract h left.now right.old frame.now (took_host result.answer (held_in h result.base result.held)) right.new }
{
    let rising = h.rising;
    let rules = Rules {
        terms: terms_from(h.options),
        codes: &h.options.ranks.codes,
        rising: &rising,
    };
    let bad = bad_numbers(
        rules,
        h.base,
        h.held,
        h.pruned,
        h.queue_start,
        h.queue_words,
        h.sequence,
        left,
        right,
    );
    feed_right(
        bad,
        flag_of(h.failed),
        flag_of(h.right_ended),
        state_of(h.state),
        rules,
        h.base,
        h.held,
        h.pruned,
        right,
        frame,
    )
}

// Takes a right frame's rows into the right area, behind the held ones. Numbers that are no join are handed back as they came.
pub fn host_right(mut h: HostJoin, left: &[i64], right: &mut [i64], frame: &[i64]) -> HostTook
    ensures { HostRightContract h left.now right.old frame.now result right.new }
{
    let mut refusal = 2;
    if is_join(h) {
        let fed = right_fed(h, left, right, frame);
        h.base = fed.base;
        h.held = fed.held;
        refusal = took_code(fed.answer);
    }
    HostTook { refusal, join: h }
}

// Ends right: no right frame comes any more.
pub fn host_end_right(h: HostJoin, left: &[i64], right: &[i64]) -> HostTook
    ensures { HostEndContract h left.now right.now result }
{
    if is_join(h) {
        return join_of(h).end_right(left, right).into();
    }
    bad_took(h)
}
