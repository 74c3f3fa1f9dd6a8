// The right area: where the held rows stand, and the words that a push writes behind them.
ghost use Rattle.std.specs.Prelude.{◌≡◌, ◌+◌, ◌*◌, length, drop};
ghost use Rattle.buffer.specs.area.Area.{capacity, moved, written};
ghost use Rattle.buffer.specs.area.Requires.{Columns, BaseIn, WordsIn, AppendIn, Appended, BothIn, AppendedBoth, PushIn, Pushed};

use rows::framerule::row_count;

// Right capacity R: how many rows of c columns the area has room for, values and marks.
pub(crate) fn capacity(area: &[i64], c: usize) -> usize
    requires { Columns c }
    ensures { result ≡ capacity c area.now }
{
    area.len() / (2 * c)
}

// The values of the held rows, from the first held row's on.
pub fn held_values<'a>(area: &'a [i64], base: usize, c: usize) -> &'a [i64]
    requires { BaseIn c base area.now }
    ensures { result.now ≡ drop (base * c) area.now }
{
    let p = base * c;
    &area[p..]
}

// The marks of the held rows, from the first held row's on.
pub fn held_marks<'a>(area: &'a [i64], base: usize, c: usize) -> &'a [i64]
    requires { BaseIn c base area.now }
    ensures { result.now ≡ drop ((capacity c area.now + base) * c) area.now }
{
    let p = (capacity(area, c) + base) * c;
    &area[p..]
}

// Moves the n words from `start` on to the front. Each turn reads at or behind the place that it writes, so a move over itself is safe.
fn move_front(area: &mut [i64], start: usize, n: usize)
    requires { WordsIn start n area.old }
    ensures { area.new ≡ moved start 0 n area.old }
{
    for i in 0..n {
        area[i] = area[start + i];
    }
}

// Writes all of `words` from place `at` on.
fn write_words(area: &mut [i64], at: usize, words: &[i64])
    requires { WordsIn at (length words.now) area.old }
    ensures { area.new ≡ written words.now at area.old }
{
    // A loop: copy_from_slice took 26 instructions a left row more in a join, where all copies take 7.5 (docs/BENCH.md).
    for i in 0..words.len() {
        area[at + i] = words[i];
    }
}

// Writes words behind the live ones. Where that would pass the end, the live words move to the front first. Returns where they start now.
pub fn append(area: &mut [i64], start: usize, live: usize, words: &[i64]) -> usize
    requires { AppendIn start live (length words.now) area.old }
    ensures { Appended start live words.now area.old result area.new }
{
    if area.len() < start + live + words.len() {
        move_front(area, start, live);
        write_words(area, live, words);
        return 0;
    }
    write_words(area, start + live, words);
    start
}

// Appends values to the live words of the area's first half, and marks to those of its second, which stand alike. Returns where they start now.
fn append_both(
    area: &mut [i64],
    half: usize,
    start: usize,
    live: usize,
    values: &[i64],
    marks: &[i64],
) -> usize
    requires { BothIn half start live values.now marks.now area.old }
    ensures { AppendedBoth half start live values.now marks.now area.old result area.new }
{
    let both = half + half;
    append(&mut area[..half], start, live, values);
    append(&mut area[half..both], start, live, marks)
}

// Puts a frame's rows behind the held ones. Where they would pass the end, the held rows move to the front first. Returns the new base.
pub fn push(area: &mut [i64], base: usize, held: usize, frame: &[i64], c: usize) -> usize
    requires { PushIn c base held frame.now area.old }
    ensures { Pushed c base held frame.now area.old result area.new }
{
    let half = capacity(area, c) * c;
    let e = 2 + row_count(frame) * c;
    append_both(area, half, base * c, held * c, &frame[2..e], &frame[e..]) / c
}
