// Port calls, turns and runs, over structs of numbers. A turn reads what it needs of the numbers where they lie; port calls and runs read the join whole. Each hands the join back in numbers.
ghost use Rattle.std.specs.Prelude.{◌≡◌, true};
ghost use Rattle.ffi.specs.convert.Convert.{is_join};
ghost use Rattle.ffi.specs.results.Results.{turned_host};
ghost use Rattle.ffi.specs.hostpart.Parts.{part_in};
ghost use Rattle.hostcalls.specs.CallContracts.{HostPortsContract, HostTurnContract, HostRunContract};

use callrules::consistency::bad_numbers;
use ffi::codes::{are_codes, port_of, state_of};
use ffi::convert::{HostJoin, is_join, join_of};
use ffi::hostoptions::terms_from;
use ffi::hostpart::{answer_code, answer_refusal, answer_sequence, part_from, part_in};
use ffi::results::{HostPorted, HostRan, HostTurned, bad_ported, bad_ran};
use node::runs::run;
use node::turncall::turn_queue;
use node::turnfront::TurnedPart;
use order::options::Rules;

// A port call: l, r and s are what left, right and send come with.
pub fn host_ports(h: HostJoin, left: &[i64], right: &[i64], l: u64, r: u64, s: u64) -> HostPorted
    ensures { HostPortsContract h left.now right.now l r s result }
{
    if !are_codes(l, r, s) {
        return bad_ported(h);
    }
    if is_join(h) {
        return join_of(h)
            .ports(left, right, port_of(l), port_of(r), port_of(s))
            .into();
    }
    bad_ported(h)
}

// What a turn makes of the part of a join in numbers, which are read where they lie.
fn part_turned(h: HostJoin, left: &[i64], right: &[i64], out: &mut [i64]) -> TurnedPart
    requires { is_join h ≡ true }
    ensures { HostTurnContract h left.now right.now out.old (turned_host result.answer (part_in h result.part)) out.new }
{
    let rising = h.rising;
    let rules = Rules {
        terms: terms_from(h.options),
        codes: &h.options.ranks.codes,
        rising: &rising,
    };
    let bad = bad_numbers(
        rules,
        h.base,
        h.held,
        h.pruned,
        h.queue_start,
        h.queue_words,
        h.sequence,
        left,
        right,
    );
    let part = part_from(h);
    turn_queue(bad, state_of(h.state), part, rules, left, right, out)
}

// One turn: the front of the queue is matched with the held rows, and its matches are written into the output. Numbers that are no join are handed back as they came.
pub fn host_turn(mut h: HostJoin, left: &[i64], right: &[i64], out: &mut [i64]) -> HostTurned
    ensures { HostTurnContract h left.now right.now out.old result out.new }
{
    let mut answer = 3;
    let mut refusal = 2;
    let mut sequence = 0;
    if is_join(h) {
        let t = part_turned(h, left, right, out);
        answer = answer_code(t.answer);
        refusal = answer_refusal(t.answer);
        sequence = answer_sequence(t.answer);
        h = part_in(h, t.part);
    }
    HostTurned {
        answer,
        refusal,
        sequence,
        join: h,
    }
}

// At most k turns, each writing behind the one before; the first that does not write ends it.
pub fn host_run(h: HostJoin, k: usize, left: &[i64], right: &[i64], out: &mut [i64]) -> HostRan
    ensures { HostRunContract h k left.now right.now out.old result out.new }
{
    if is_join(h) {
        return run(join_of(h), k, left, right, out).into();
    }
    bad_ran(h)
}
