// Flags, states, ports and refusals as numbers.
ghost use Rattle.std.specs.Prelude.{◌≡◌, ◌&&◌};
ghost use Rattle.ffi.specs.codes.Codes.{is_flag, flag_of, flag_code, are_flags, flags_of, flag_codes, check_of, is_code, state_of, port_of, took_code, stop_code, stop_refusal};

use frames::outcomes::{NodeState, PortState, Stop};
use frames::refusals::Refusal;
use order::options::Check;

// Whether two tests hold.
pub fn both(a: bool, b: bool) -> bool
    ensures { result ≡ (a && b) }
{
    a && b
}

// Whether a number is a flag: 0 or 1.
pub fn is_flag(x: u64) -> bool
    ensures { result ≡ is_flag x }
{
    x < 2
}

// What a flag says: 1 is yes.
pub fn flag_of(x: u64) -> bool
    ensures { result ≡ flag_of x }
{
    x == 1
}

// The flag of yes and of no.
pub fn flag_code(b: bool) -> u64
    ensures { result ≡ flag_code b }
{
    if b { 1 } else { 0 }
}

// Whether the four numbers are flags.
pub fn are_flags(a: [u64; 4]) -> bool
    ensures { result ≡ are_flags a }
{
    let first = both(is_flag(a[0]), is_flag(a[1]));
    both(first, both(is_flag(a[2]), is_flag(a[3])))
}

// What the four flags say.
pub fn flags_of(a: [u64; 4]) -> [bool; 4]
    ensures { result ≡ flags_of a }
{
    [flag_of(a[0]), flag_of(a[1]), flag_of(a[2]), flag_of(a[3])]
}

// The flags of the four.
pub fn flag_codes(a: [bool; 4]) -> [u64; 4]
    ensures { result ≡ flag_codes a }
{
    [
        flag_code(a[0]),
        flag_code(a[1]),
        flag_code(a[2]),
        flag_code(a[3]),
    ]
}

// The order check's setting: 0 off, 1 on, 2 strict.
pub fn check_of(x: u64) -> Check
    ensures { result ≡ check_of x }
{
    if x == 0 {
        return Check::Off;
    }
    if x == 1 {
        return Check::On;
    }
    Check::Strict
}

// Whether a number tells a setting of the order check, a state of the node or of a port.
pub fn is_code(x: u64) -> bool
    ensures { result ≡ is_code x }
{
    x < 3
}

// Whether what three ports come with can be said.
pub fn are_codes(l: u64, r: u64, s: u64) -> bool
    ensures { result ≡ (is_code l && is_code r && is_code s) }
{
    is_code(l) && is_code(r) && is_code(s)
}

// The node's state by its number.
pub fn state_of(x: u64) -> NodeState
    ensures { result ≡ state_of x }
{
    if x == 0 {
        return NodeState::Running;
    }
    if x == 1 {
        return NodeState::Flush;
    }
    NodeState::Done
}

// A port's state by its number.
pub fn port_of(x: u64) -> PortState
    ensures { result ≡ port_of x }
{
    if x == 0 {
        return PortState::Blocked;
    }
    if x == 1 {
        return PortState::Ready;
    }
    PortState::Done
}

// The number of an answer: 0 where the call was accepted.
pub fn took_code(t: Result<(), Refusal>) -> u64
    ensures { result ≡ took_code t }
{
    match t {
        Ok(()) => 0,
        Err(n) => n.into(),
    }
}

// The number of what ended a run.
pub fn stop_code(s: Result<Stop, Refusal>) -> u64
    ensures { result ≡ stop_code s }
{
    match s {
        Ok(Stop::Used) => 0,
        Ok(Stop::WantsRight) => 1,
        Ok(Stop::Idle) => 2,
        Err(_) => 3,
    }
}

// The number of the refusal that ended a run; 0 where none did.
pub fn stop_refusal(s: Result<Stop, Refusal>) -> u64
    ensures { result ≡ stop_refusal s }
{
    match s {
        Ok(_) => 0,
        Err(n) => n.into(),
    }
}
