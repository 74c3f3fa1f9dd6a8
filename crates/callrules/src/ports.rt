// The ports: where a port call takes the node, and what each port is told there.
ghost use Rattle.std.specs.Prelude.{◌≡◌, ◌||◌};
ghost use Rattle.frames.specs.declared.outcomes.NodeState.TheVariants.{Flush};
ghost use Rattle.frames.specs.declared.outcomes.PortState.TheVariants.{Ready};
ghost use Rattle.callrules.specs.ports.Ports.{port_blocked, to_flush, to_done, ready_unless, ports_in, Moves};

use frames::outcomes::{NodeState, PortState, Ports};
use frames::refusals::Refusal;

// After a port call: what the ports are told, and the node's state, which a refused call has too.
#[derive(Clone, Copy)]
pub struct PortsMoved {
    pub answer: Result<Ports, Refusal>,
    pub state: NodeState,
}

// A node in Flush with so many words waiting: Done where nothing waits.
fn flushed(words: usize) -> NodeState
    ensures { result ≡ to_done Flush words }
{
    if words == 0 {
        return NodeState::Done;
    }
    NodeState::Flush
}

// The node's state after a port call whose send is not Done.
fn while_sending(state: NodeState, left: PortState, words: usize) -> NodeState
    ensures { result ≡ to_done (to_flush state left Ready) words }
{
    match state {
        NodeState::Running => match left {
            PortState::Blocked => NodeState::Running,
            PortState::Ready => NodeState::Running,
            PortState::Done => flushed(words),
        },
        NodeState::Flush => flushed(words),
        NodeState::Done => NodeState::Done,
    }
}

// The node's state after a port call that comes with left and send, with so many words waiting.
fn next_state(state: NodeState, left: PortState, send: PortState, words: usize) -> NodeState
    ensures { result ≡ to_done (to_flush state left send) words }
{
    match send {
        PortState::Blocked => while_sending(state, left, words),
        PortState::Ready => while_sending(state, left, words),
        PortState::Done => NodeState::Done,
    }
}

// Ready, unless the other port came Blocked.
fn ready_unless(other: PortState) -> PortState
    ensures { result ≡ ready_unless (port_blocked other) }
{
    match other {
        PortState::Blocked => PortState::Blocked,
        PortState::Ready => PortState::Ready,
        PortState::Done => PortState::Ready,
    }
}

// Ready, unless one of the two other ports came Blocked.
fn ready_unless_any(a: PortState, b: PortState) -> PortState
    ensures { result ≡ ready_unless (port_blocked a || port_blocked b) }
{
    match a {
        PortState::Blocked => PortState::Blocked,
        PortState::Ready => ready_unless(b),
        PortState::Done => ready_unless(b),
    }
}

// What left, right and send are told in a state, by what they came with.
fn told(state: NodeState, left: PortState, right: PortState, send: PortState) -> Ports
    ensures { result ≡ ports_in state left right send }
{
    match state {
        NodeState::Running => Ports {
            left: ready_unless_any(right, send),
            right: ready_unless_any(left, send),
            send: ready_unless_any(left, right),
        },
        NodeState::Flush => Ports {
            left: PortState::Done,
            right: ready_unless(send),
            send: ready_unless(right),
        },
        NodeState::Done => Ports {
            left: PortState::Done,
            right: PortState::Done,
            send: PortState::Done,
        },
    }
}

// A port call, with so many words waiting: refused, it leaves the node where it is.
pub fn move_ports(
    bad: bool,
    failed: bool,
    state: NodeState,
    left: PortState,
    right: PortState,
    send: PortState,
    words: usize,
) -> PortsMoved
    ensures { Moves bad failed state left right send words result }
{
    if bad {
        return PortsMoved {
            answer: Err(Refusal::BadJoin),
            state,
        };
    }
    if failed {
        return PortsMoved {
            answer: Err(Refusal::Failed),
            state,
        };
    }
    let next = next_state(state, left, send, words);
    PortsMoved {
        answer: Ok(told(next, left, right, send)),
        state: next,
    }
}
