// The calls, each made from its numbers.
use crate::words::{behind, between, number_at, within, word_or};
use host::{HostJoin, HostOptions, HostRanks, HostTook};
use rows::view::Found;

// What a call left, and the numbers of its answer; those that it does not have are 0.
#[derive(Clone, Copy)]
pub(crate) struct Said {
    pub(crate) join: HostJoin,
    pub(crate) numbers: [u64; 11],
}

// Four flags, from place k on.
fn flags_at(given: &[i64], k: usize) -> [u64; 4] {
    let rest = behind(given, k);
    [
        number_at(rest, 0),
        number_at(rest, 1),
        number_at(rest, 2),
        number_at(rest, 3),
    ]
}

// No list of ranks.
fn no_ranks() -> HostRanks {
    let codes = [0i64; 64];
    HostRanks {
        given: 0,
        column: 0,
        count: 0,
        codes,
    }
}

// The options of an opening: no list of ranks is recorded, and the distance only where it is written.
pub(crate) fn options_of(given: &[i64]) -> HostOptions {
    HostOptions {
        by: number_at(given, 0) as usize,
        strategy: number_at(given, 1),
        allow_eq: number_at(given, 2),
        tolerance: word_or(given, 3, 0),
        check: number_at(given, 4),
        descending: flags_at(given, 5),
        nulls_last: flags_at(given, 9),
        carried: number_at(given, 13) as usize,
        ranks: no_ranks(),
        with_distance: number_at(given, 14),
    }
}

// The answer of opening, of a frame and of the end of right: the refusal's number, or 0.
fn took(t: HostTook) -> Said {
    Said {
        join: t.join,
        numbers: [t.refusal, 0, 0, 0, 0, 0, 0, 0, 0, 0, 0],
    }
}

// A port call: the refusal's number, what each port is told, and the node's state.
fn ports(j: HostJoin, left: &[i64], right: &[i64], given: &[i64]) -> Said {
    let l = number_at(given, 0);
    let r = number_at(given, 1);
    let s = number_at(given, 2);
    let p = host::rowkeeper_ports(j, left, right, l, r, s);
    let join = p.join;
    Said {
        join,
        numbers: [
            p.refusal, p.left, p.right, p.send, join.state, 0, 0, 0, 0, 0, 0,
        ],
    }
}

// A turn: which answer, the refusal's number, the sequence.
fn turn(j: HostJoin, left: &[i64], right: &[i64], out: &mut [i64]) -> Said {
    let t = host::rowkeeper_turn(j, left, right, out);
    Said {
        join: t.join,
        numbers: [t.answer, t.refusal, t.sequence, 0, 0, 0, 0, 0, 0, 0, 0],
    }
}

// A run of at most k turns: how many wrote, how many words, what stopped it, the refusal's number.
fn run(j: HostJoin, k: u64, left: &[i64], right: &[i64], out: &mut [i64]) -> Said {
    let t = host::rowkeeper_run(j, k as usize, left, right, out);
    let turns = t.turns as u64;
    let words = t.words as u64;
    Said {
        join: t.join,
        numbers: [turns, words, t.stop, t.refusal, 0, 0, 0, 0, 0, 0, 0],
    }
}

// What the join holds: its counters, its state and flags, and whether a row is remembered on each side.
fn state(j: HostJoin) -> Said {
    let l = j.last_left;
    let r = j.last_right;
    Said {
        join: j,
        numbers: [
            j.base as u64,
            j.held as u64,
            j.pruned as u64,
            j.queue_start as u64,
            j.queue_words as u64,
            j.state,
            j.right_ended,
            j.failed,
            j.sequence,
            l.some,
            r.some,
        ],
    }
}

// The host alters a word of the left area: 0, or 1 where it has no such word.
fn put_left(j: HostJoin, left: &mut [i64], given: &[i64]) -> HostTook {
    let i = number_at(given, 0) as usize;
    if i < left.len() {
        left[i] = word_or(given, 1, 0);
        return HostTook {
            refusal: 0,
            join: j,
        };
    }
    HostTook {
        refusal: 1,
        join: j,
    }
}

// A cell of some words: 0 and how far its value is from 0, 1 null, 2 no cell.
fn cell(given: &[i64]) -> [u64; 11] {
    let c = number_at(given, 0) as usize;
    let row = number_at(given, 1) as usize;
    let column = number_at(given, 2) as usize;
    let found = rows::view::read_cell(behind(given, 3), c, row, column);
    match found {
        Found::Value(v) => [0, rows::cells::distance(v, 0), 0, 0, 0, 0, 0, 0, 0, 0, 0],
        Found::Null => [1, 0, 0, 0, 0, 0, 0, 0, 0, 0, 0],
        Found::Nothing => [2, 0, 0, 0, 0, 0, 0, 0, 0, 0, 0],
    }
}

// An opening, a frame, the end of right, or a word that the host alters.
fn feed(j: HostJoin, kind: u64, left: &mut [i64], right: &mut [i64], given: &[i64]) -> HostTook {
    match kind {
        1 => host::rowkeeper_open(options_of(given)),
        2 => host::rowkeeper_left(j, left, right, given),
        3 => host::rowkeeper_right(j, left, right, given),
        4 => host::rowkeeper_end_right(j, left, right),
        _ => put_left(j, left, given),
    }
}

// A call that alters no area.
fn ask(
    j: HostJoin,
    kind: u64,
    left: &[i64],
    right: &[i64],
    out: &mut [i64],
    given: &[i64],
) -> Said {
    match kind {
        6 => ports(j, left, right, given),
        7 => turn(j, left, right, out),
        8 => run(j, number_at(given, 0), left, right, out),
        9 => state(j),
        _ => Said {
            join: j,
            numbers: cell(given),
        },
    }
}

// Makes the call that the first k words of a line tell, over the words that it is lent.
pub(crate) fn make_call(
    j: HostJoin,
    left: &mut [i64],
    right: &mut [i64],
    out: &mut [i64],
    line: &[i64],
    k: usize,
) -> Said {
    let kind = number_at(line, 0);
    let given = between(line, 4, k);
    let l = within(number_at(line, 1), left);
    let r = within(number_at(line, 2), right);
    if kind < 6 {
        return took(feed(j, kind, &mut left[..l], &mut right[..r], given));
    }
    let o = within(number_at(line, 3), out);
    ask(j, kind, &left[..l], &right[..r], &mut out[..o], given)
}
