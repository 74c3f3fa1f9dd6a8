// The rules of frames and tables: rows n, columns c, then n * c values, then n * c marks; for any words of any length.
ghost use Rattle.std.specs.Prelude.{◌≡◌, ◌+◌, ◌%◌, ◌<◌, ◌≤◌, true, ◌&&◌, length, drop, pos, nat_le, slice_index_or};
ghost use Rattle.frames.specs.Cells.{Words};
ghost use Rattle.frames.specs.Frame.{is_table, is_frame, row_count, frame_words, same_z, pair_fine, pairs_fine};
ghost use Rattle.frames.specs.Front.{HasCount, few_rows, front_of, front_length, fitting};
ghost use Rattle.rows.specs.framerule.Pairs.{FineBetween};

// Whether a word is a number of rows, 0 to 4,096.
fn few_rows(word: i64) -> bool
    ensures { result ≡ few_rows word }
{
    if word < 0 {
        return false;
    }
    word <= 4096
}

// Whether a word is the count c.
fn same_count(word: i64, c: usize) -> bool
    ensures { result ≡ same_z word (pos c) }
{
    if word < 0 {
        return false;
    }
    word as usize == c
}

// The rows that the first word tells.
pub fn row_count(words: &[i64]) -> usize
    requires { HasCount words.now }
    ensures { result ≡ row_count words.now }
{
    words[0] as usize
}

// The length of a frame of n rows and c columns where it is at most `room`. No product is made that might wrap.
fn frame_words(n: usize, c: usize, room: usize) -> Option<usize>
    ensures { result ≡ fitting n c room }
{
    if room < 2 {
        return None;
    }
    if n == 0 {
        return Some(2);
    }
    if (room - 2) / 2 / n < c {
        return None;
    }
    Some(2 + 2 * (n * c))
}

// The length of the front of words by its n and by c, where n is a number of rows and so many words are there.
fn front_length(words: &[i64], c: usize) -> Option<usize>
    ensures { result ≡ front_length c words.now }
{
    let len = words.len();
    if len < 2 {
        return None;
    }
    if !few_rows(words[0]) {
        return None;
    }
    frame_words(row_count(words), c, len)
}

// Whether a mark fits its value: 1, or 0 with value 0.
fn pair_fine(value: i64, mark: i64) -> bool
    ensures { result ≡ pair_fine value mark }
{
    if mark == 1 {
        return true;
    }
    if mark != 0 {
        return false;
    }
    value == 0
}

// Whether the mark at place k fits the value there.
fn fine_at(values: &[i64], marks: &[i64], k: usize) -> bool
    requires { (k < length values.now) × (k < length marks.now) }
    ensures { result ≡ pair_fine (slice_index_or values.now k (pos 0)) (slice_index_or marks.now k (pos 0)) }
{
    pair_fine(values[k], marks[k])
}

// Whether the mark at place k is 1.
fn one_at(marks: &[i64], k: usize) -> bool
    requires { k < length marks.now }
    ensures { result ≡ same_z (slice_index_or marks.now k (pos 0)) (pos 1) }
{
    marks[k] == 1
}

// Whether the four marks from place i on are all 1: then they fit whatever values are there.
fn four_ones(marks: &[i64], i: usize) -> bool
    requires { i + 4 ≤ length marks.now }
    ensures { result ≡ true → (vs : Words) → FineBetween i (i + 4) vs marks.now }
{
    if !one_at(marks, i) {
        return false;
    }
    if !one_at(marks, i + 1) {
        return false;
    }
    if !one_at(marks, i + 2) {
        return false;
    }
    one_at(marks, i + 3)
}

// A place up to `end`, in fours, before which all marks are 1. Most frames have no null: of these no value is read.
fn skip_ones(marks: &[i64], end: usize) -> usize
    requires { (end % 4 ≡ 0) × (end ≤ length marks.now) }
    ensures { (result % 4 ≡ 0) × (result ≤ end) × ((vs : Words) → FineBetween 0 result vs marks.now) }
{
    let mut i = 0;
    // A while: four marks a turn, and the place where it stops is returned.
    while i < end {
        if !four_ones(marks, i) {
            return i;
        }
        i += 4;
    }
    i
}

// Whether the four marks from place i on fit their values.
fn four_fine(values: &[i64], marks: &[i64], i: usize) -> bool
    requires { (i + 4 ≤ length values.now) × (i + 4 ≤ length marks.now) }
    ensures { pairs_fine (drop i values.now) (drop i marks.now) ≡ (result && pairs_fine (drop (i + 4) values.now) (drop (i + 4) marks.now)) }
{
    if !fine_at(values, marks, i) {
        return false;
    }
    if !fine_at(values, marks, i + 1) {
        return false;
    }
    if !fine_at(values, marks, i + 2) {
        return false;
    }
    fine_at(values, marks, i + 3)
}

// Whether each mark from place `from` on fits its value.
fn rest_fine(values: &[i64], marks: &[i64], from: usize) -> bool
    requires { (from ≤ length values.now) × (length values.now ≤ length marks.now) }
    ensures { result ≡ pairs_fine (drop from values.now) (drop from marks.now) }
{
    for i in from..values.len() {
        if !fine_at(values, marks, i) {
            return false;
        }
    }
    true
}

// Whether each mark fits its value: four at a time, and the last fewer than four one by one.
fn pairs_fine(values: &[i64], marks: &[i64]) -> bool
    requires { length values.now ≤ length marks.now }
    ensures { result ≡ pairs_fine values.now marks.now }
{
    let len = values.len();
    let end = len - len % 4;
    let mut i = skip_ones(marks, end);
    // A while: four pairs a turn, and the last fewer than four begin where it stops.
    while i < end {
        if !four_fine(values, marks, i) {
            return false;
        }
        i += 4;
    }
    rest_fine(values, marks, i)
}

// Whether the words are a table of c columns, of any number of rows.
pub fn is_table(words: &[i64], c: usize) -> bool
    ensures { result ≡ is_table c words.now }
{
    let len = words.len();
    if len < 2 {
        return false;
    }
    if words[0] < 0 {
        return false;
    }
    let Some(k) = frame_words(row_count(words), c, len) else {
        return false;
    };
    if k != len {
        return false;
    }
    if !same_count(words[1], c) {
        return false;
    }
    let e = len / 2 + 1;
    pairs_fine(&words[2..e], &words[e..])
}

// Whether the words are a frame of c columns. Words that tell too many rows are not passed.
pub fn is_frame(words: &[i64], c: usize) -> bool
    ensures { result ≡ is_frame c words.now }
{
    if words.len() < 1 {
        return false;
    }
    if !few_rows(words[0]) {
        return false;
    }
    is_table(words, c)
}

// Whether so many words have room for a table of n rows and c columns.
pub fn has_room(n: usize, c: usize, room: usize) -> bool
    ensures { result ≡ nat_le (frame_words n c) room }
{
    match frame_words(n, c, room) {
        Some(_) => true,
        None => false,
    }
}

// The length of the frame of c columns at the front of words that wait, or nothing where these words are none.
pub fn front_words(waiting: &[i64], c: usize) -> Option<usize>
    ensures { result ≡ front_of c waiting.now }
{
    let Some(k) = front_length(waiting, c) else {
        return None;
    };
    if is_frame(&waiting[..k], c) {
        return Some(k);
    }
    None
}
