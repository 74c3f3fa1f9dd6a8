// Words and what they tell.
ghost use Rattle.std.specs.Prelude.{◌≡◌, ◌≤◌, length, take};

// The word whose bits are those of a number.
pub(crate) fn word_of(n: u64) -> i64 {
    if n < 9223372036854775808 {
        return n as i64;
    }
    !(!n as i64)
}

// The word at place k of some, or another one where they are not so many.
pub(crate) fn word_or(words: &[i64], k: usize, other: i64) -> i64 {
    if k < words.len() {
        return words[k];
    }
    other
}

// The number at place k: how far the word there is from 0, and 0 where there is none.
pub(crate) fn number_at(words: &[i64], k: usize) -> u64 {
    rows::cells::distance(word_or(words, k, 0), 0)
}

// How many words from the front of some are n, or all where they are not so many.
pub(crate) fn within(n: u64, words: &[i64]) -> usize
    ensures { (result ≤ length words.now) × (result ≡ length (take result words.now)) }
{
    if n < words.len() as u64 {
        return n as usize;
    }
    words.len()
}

// The words behind the first k.
pub(crate) fn behind(words: &[i64], k: usize) -> &[i64] {
    if words.len() < k {
        return words;
    }
    &words[k..]
}

// The words from place k up to place n.
pub(crate) fn between(words: &[i64], k: usize, n: usize) -> &[i64] {
    if n < k {
        return words;
    }
    if words.len() < n {
        return words;
    }
    &words[k..n]
}

// The recorded number or word at place i of those from k up to n, or another one where they are not so many.
fn recorded(line: &[i64], i: usize, k: usize, n: usize, other: i64) -> i64 {
    if n < k {
        return other;
    }
    if i < n - k {
        return word_or(line, k + i, other);
    }
    other
}

// Whether the numbers of an answer are those from place k up to n of a line.
pub(crate) fn same_numbers(said: &[u64], line: &[i64], k: usize, n: usize) -> bool {
    for i in 0..said.len() {
        if said[i] != rows::cells::distance(recorded(line, i, k, n, 0), 0) {
            return false;
        }
    }
    true
}

// Whether an output has the words from place k up to n of a line, and behind them what it had before.
pub(crate) fn same_words(out: &[i64], line: &[i64], k: usize, n: usize) -> bool {
    for i in 0..out.len() {
        if out[i] != recorded(line, i, k, n, -9) {
            return false;
        }
    }
    true
}
