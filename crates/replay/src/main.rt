// Replays recorded calls through the functions that C calls, and says for each part of the input how many answers differ.
//
// A line of the input is a call, `=`, the numbers of the recorded answer, `=`, and the words that were written. A call is its kind, how many words of the left area, of the right area and of an output it is lent, and what it is given:
//
//     1 L R O BY STRATEGY EQ TOLERANCE CHECK DESCENDING×4 NULLS_LAST×4 CARRIED DISTANCE    open
//     2 L R O W…    left        3 L R O W…    right        4 L R O    end of right
//     5 L R O I W    the host alters word I of the left area
//     6 L R O LEFT RIGHT SEND    ports
//     7 L R O    turn           8 L R O K    run           9 L R O    what the join holds
//     10 L R O C ROW COLUMN W…    a cell of these words, as a frame of C columns
//     0 PART    ends a part
//
// Each of the three has one number at least. A further number that is not told is 0, and a further word -9, as the whole output is before the call. The areas keep their words from script to script.
#![tactic(auto)]

mod calls;
mod reader;
mod summary;
mod words;

ghost use Rattle.std.specs.Prelude.{◌≡◌, length};

use calls::{make_call, options_of};
use host::HostJoin;
use reader::{Reader, ended, read, unread};
use summary::{Tally, nothing, tallied, tell_part};
use words::{number_at, same_numbers, same_words};

// The replay so far: what of the line is read, the join, and what was counted in this part.
#[derive(Clone, Copy)]
struct Replay {
    reader: Reader,
    join: HostJoin,
    tally: Tally,
}

// Nothing read, and a join that no opening gave: every call is refused.
fn start() -> Replay {
    let refused = host::rowkeeper_open(options_of(&[5i64]));
    Replay {
        reader: unread(),
        join: refused.join,
        tally: nothing(),
    }
}

// Whether an answer is the recorded one of a line.
fn same(numbers: &[u64], out: &[i64], line: &[i64], r: Reader) -> bool {
    same_numbers(numbers, line, r.call, r.numbers) && same_words(out, line, r.numbers, r.words)
}

// Ends a part: tells it, and counts anew.
fn end_part(mut s: Replay, part: u64) -> Replay {
    tell_part(s.tally, part);
    s.tally = nothing();
    s
}

// A line that is read whole: a part ends, or its call is made and the answer compared with the recorded one.
fn replay_line(mut s: Replay, line: &[i64], left: &mut [i64], right: &mut [i64]) -> Replay {
    let r = s.reader;
    s.reader = unread();
    if number_at(line, 0) == 0 {
        return end_part(s, number_at(line, 1));
    }
    let mut out = [-9i64; 128];
    let said = make_call(s.join, left, right, &mut out, line, r.call);
    let numbers = said.numbers;
    s.join = said.join;
    s.tally = tallied(s.tally, number_at(line, 0), same(&numbers, &out, line, r));
    s
}

// One more byte of the input.
fn replay_byte(
    mut s: Replay,
    byte: u8,
    line: &mut [i64],
    left: &mut [i64],
    right: &mut [i64],
) -> Replay {
    let r = s.reader;
    if byte == b'\n' {
        s.reader = ended(r, line);
        return replay_line(s, line, left, right);
    }
    s.reader = read(r, byte, line);
    s
}

// Replays the input, byte by byte.
fn replay_all(text: &[u8], line: &mut [i64], left: &mut [i64], right: &mut [i64]) {
    let mut s = start();
    for byte in text {
        s = replay_byte(s, *byte, line, left, right);
    }
}

// Room for the whole input.
fn room() -> [u8; 1048576]
    ensures { 1048576 ≡ length result }
{
    [0; 1048576]
}

// Zeros for a line of numbers and for an area: frames of 4,097 rows fit.
fn zeros() -> [i64; 8448]
    ensures { 8448 ≡ length result }
{
    [0; 8448]
}

// Reads the input, and lends the memory of the replay: a line of numbers and the two areas.
fn main() {
    let mut text = room();
    let mut line = zeros();
    let mut left = zeros();
    let mut right = zeros();
    let n = io::read_full(0, &mut text);
    replay_all(&text[..n], &mut line, &mut left, &mut right);
}
