// A run of turns: what it made, and what ends it.
ghost use Rattle.std.specs.Prelude.{◌≡◌, ◌≤◌};
ghost use Rattle.frames.specs.Frame.{row_count};
ghost use Rattle.frames.specs.Front.{HasCount};
ghost use Rattle.node.specs.runs.Run.{stop_of, turn_words};
ghost use Rattle.node.specs.runs.RunContract.{RunContract};

use crate::Join;
pub use frames::outcomes::Stop;
use frames::outcomes::{Turn, goes_on};
use frames::refusals::Refusal;
use order::options::{answer_columns, terms_of};
use rows::framerule::row_count;

// What a run made: the turns that wrote, the words that they wrote back to back, what ended it, and the join, which a run has whatever ends it.
#[derive(Clone, Copy)]
pub struct RanJoin {
    pub turns: usize,
    pub words: usize,
    pub stop: Result<Stop, Refusal>,
    pub join: Join,
}

// What a turn's answer ends a run with.
fn stop_of(answer: Result<Turn, Refusal>) -> Result<Stop, Refusal>
    ensures { result ≡ stop_of answer }
{
    match answer? {
        Turn::Wrote(_) => Ok(Stop::Used),
        Turn::WantsRight => Ok(Stop::WantsRight),
        Turn::Idle => Ok(Stop::Idle),
    }
}

// How many words a turn wrote, by the row count that it wrote first and by the answer's columns, at most ten.
fn turn_words(out: &[i64], c: usize) -> usize
    requires { HasCount out.now × (row_count out.now ≤ 4096) × (c ≤ 10) }
    ensures { result ≡ turn_words c out.now }
{
    2 + 2 * (row_count(out) * c)
}

// Makes at most k turns, each writing behind the one before; it ends with the first that does not write.
pub fn run(mut join: Join, k: usize, left: &[i64], right: &[i64], out: &mut [i64]) -> RanJoin
    ensures { RunContract join k left.now right.now out.old result out.new }
{
    let mut at = 0;
    for made in 0..k {
        let t = join.turn(left, right, &mut out[at..]);
        join = t.join;
        if !goes_on(t.answer) {
            return RanJoin {
                turns: made,
                words: at,
                stop: stop_of(t.answer),
                join,
            };
        }
        let c = answer_columns(terms_of(join.options));
        at += turn_words(&out[at..], c);
    }
    RanJoin {
        turns: k,
        words: at,
        stop: Ok(Stop::Used),
        join,
    }
}
