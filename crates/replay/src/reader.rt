// Lines of numbers, read byte by byte.
use crate::words::word_of;

// A line as far as it is read: the digits of its next number, whether a minus came before them, how many words are read, and where the call and the answer's numbers end.
#[derive(Clone, Copy)]
pub(crate) struct Reader {
    value: u64,
    minus: bool,
    pub(crate) words: usize,
    pub(crate) call: usize,
    pub(crate) numbers: usize,
}

// Nothing of a line read yet.
pub(crate) fn unread() -> Reader {
    Reader {
        value: 0,
        minus: false,
        words: 0,
        call: 0,
        numbers: 0,
    }
}

// The word that digits tell, with or without a minus.
fn signed(value: u64, minus: bool) -> i64 {
    if minus {
        return word_of(std::num::wrapping_sub_u64(0, value));
    }
    word_of(value)
}

// The number that was read goes to its place in the line; the next one begins. Past the line's room nothing is kept.
pub(crate) fn ended(mut r: Reader, line: &mut [i64]) -> Reader {
    let at = r.words;
    let word = signed(r.value, r.minus);
    r.value = 0;
    r.minus = false;
    if at < line.len() {
        line[at] = word;
        r.words = at + 1;
        return r;
    }
    r
}

// The first `=` of a line ends the call, and the second one the answer's numbers.
fn split(mut r: Reader) -> Reader {
    r.call = r.numbers;
    r.numbers = r.words;
    r
}

// A minus came before the digits.
fn negative(mut r: Reader) -> Reader {
    r.minus = true;
    r
}

// One more digit; no number is above 2^63.
fn with_digit(mut r: Reader, byte: u8) -> Reader {
    if r.value > 922337203685477580 {
        return r;
    }
    if byte < b'0' {
        return r;
    }
    r.value = r.value * 10 + (byte - b'0') as u64;
    r
}

// One more byte of a line.
pub(crate) fn read(r: Reader, byte: u8, line: &mut [i64]) -> Reader {
    match byte {
        b' ' => ended(r, line),
        b'=' => split(ended(r, line)),
        b'-' => negative(r),
        _ => with_digit(r, byte),
    }
}
