// What the join's calls speak in: states of the node, what ports say, and answers; and tests of these.
ghost use Rattle.std.specs.Prelude.{◌≡◌, ◌+◌, ltb};
ghost use Rattle.frames.specs.outcomes.Answers.{state_code, port_code, is_running, is_done, wrote};

use crate::refusals::Refusal;

#[derive(Clone, Copy, PartialEq, Eq, Debug)]
pub enum NodeState {
    Running,
    Flush,
    Done,
}

impl NodeState {
    // Whether the node takes left frames.
    pub fn is_running(self) -> bool
        ensures { result ≡ is_running self }
    {
        matches!(&self, NodeState::Running)
    }

    // Whether the node is done.
    pub fn is_done(self) -> bool
        ensures { result ≡ is_done self }
    {
        matches!(&self, NodeState::Done)
    }
}

// The number of the node's state.
impl From<NodeState> for u64 {
    ghost from_gives = { λ state n. n ≡ state_code state };

    fn from(state: NodeState) -> u64 {
        match state {
            NodeState::Running => 0,
            NodeState::Flush => 1,
            NodeState::Done => 2,
        }
    }
}

// What a port says, and is told: 0 Blocked, 1 Ready, 2 Done.
#[derive(Clone, Copy, PartialEq, Eq, Debug)]
pub enum PortState {
    Blocked,
    Ready,
    Done,
}

// The number of a port's state.
impl From<PortState> for u64 {
    ghost from_gives = { λ state n. n ≡ port_code state };

    fn from(state: PortState) -> u64 {
        match state {
            PortState::Blocked => 0,
            PortState::Ready => 1,
            PortState::Done => 2,
        }
    }
}

// What a turn did that was not refused: it wrote, with this sequence; it wants right rows; or no frame waits.
#[derive(Clone, Copy, PartialEq, Eq, Debug)]
pub enum Turn {
    Wrote(u64),
    WantsRight,
    Idle,
}

// What left, right and send are told by a port call.
#[derive(Clone, Copy, PartialEq, Eq, Debug)]
pub struct Ports {
    pub left: PortState,
    pub right: PortState,
    pub send: PortState,
}

// What ends a run of turns that none of them refused: its k turns are used, or the last one did not write.
#[derive(Clone, Copy, PartialEq, Eq, Debug)]
pub enum Stop {
    Used,
    WantsRight,
    Idle,
}

// Whether a + b is above the limit, with no sum that might wrap.
pub fn above(a: usize, b: usize, limit: usize) -> bool
    ensures { result ≡ ltb limit (a + b) }
{
    if limit < a {
        return true;
    }
    limit - a < b
}

// Whether a turn goes on, or wrote.
pub fn goes_on(answer: Result<Turn, Refusal>) -> bool
    ensures { result ≡ wrote answer }
{
    matches!(&answer, Ok(Turn::Wrote(_)))
}
