// The two answer readers: views of an answer frame, places read of them, and one place in one call; for any words.
ghost use Rattle.std.specs.Prelude.{◌≡◌, ◌≤◌};
ghost use Rattle.readers.specs.Reader.{column_count, framed, known_by, view_by, view_plain, view_distance, read_by, read_plain, read_distance};
ghost use Rattle.readers.specs.Places.{HasColumns, Place, place_words, shown_at};

use crate::{CellWords, View};
use frames::refusals::Refusal;
use rows::framerule::{has_room, is_frame, row_count};

// The column count that the second word tells.
fn column_count(frame: &[i64]) -> usize
    requires { HasColumns frame.now }
    ensures { result ≡ column_count frame.now }
{
    frame[1] as usize
}

// Whether the words are a frame of as many columns as they tell.
fn is_framed(frame: &[i64]) -> bool
    ensures { result ≡ framed frame.now }
{
    if frame.len() < 2 {
        return false;
    }
    if frame[1] < 0 {
        return false;
    }
    is_frame(frame, column_count(frame))
}

// Whether a reader knows frames of c columns: 1 + p, and with the distance 2 + p as well.
// A flag, constant in each caller: the definition asks for the same one.
fn knows(distance: bool, p: usize, c: usize) -> bool
    requires { p ≤ 8 }
    ensures { result ≡ known_by distance p c }
{
    if c == p + 1 {
        return true;
    }
    if distance {
        return c == p + 2;
    }
    false
}

// A view of a frame by either reader: 10, then 5, then 13.
// A flag, constant in each caller: the definition asks for the same one.
fn view_by(distance: bool, p: usize, frame: &[i64]) -> Result<View, Refusal>
    ensures { result ≡ view_by (known_by distance) p frame.now }
{
    if 8 < p {
        return Err(Refusal::TooManyCarried);
    }
    if !is_framed(frame) {
        return Err(Refusal::BadFrame);
    }
    let c = column_count(frame);
    if !knows(distance, p, c) {
        return Err(Refusal::BadColumns);
    }
    Ok(View {
        rows: row_count(frame),
        columns: c,
    })
}

// The plain reader's view, given the p of the join that wrote the frame: frames of 1 + p columns alone.
pub fn view_plain(p: usize, frame: &[i64]) -> Result<View, Refusal>
    ensures { result ≡ view_plain p frame.now }
{
    view_by(false, p, frame)
}

// The distance reader's view: frames of 1 + p columns, and of 2 + p.
pub fn view_distance(p: usize, frame: &[i64]) -> Result<View, Refusal>
    ensures { result ≡ view_distance p frame.now }
{
    view_by(true, p, frame)
}

// The two words of a place that is there.
fn place_words(rows: usize, columns: usize, frame: &[i64], row: usize, column: usize) -> CellWords
    requires { Place rows columns frame.now row column }
    ensures { result ≡ place_words rows columns frame.now row column }
{
    let k = row * columns + column;
    let m = rows * columns;
    CellWords {
        value: frame[2 + k],
        mark: frame[2 + m + k],
    }
}

// The two words in this row and column of a frame of so many rows and columns, as a view tells them; a place outside reads as null, and so does every place of words that are too short for such a frame.
pub fn shown_at(rows: usize, columns: usize, frame: &[i64], row: usize, column: usize) -> CellWords
    ensures { result ≡ shown_at rows columns frame.now row column }
{
    if row < rows {
        if column < columns {
            if has_room(rows, columns, frame.len()) {
                return place_words(rows, columns, frame, row, column);
            }
        }
    }
    CellWords { value: 0, mark: 0 }
}

// What either reader shows of one place: a view, and the place read of it.
// A flag, constant in each caller: the definition asks for the same one.
fn read_by(
    distance: bool,
    p: usize,
    frame: &[i64],
    row: usize,
    column: usize,
) -> Result<CellWords, Refusal>
    ensures { result ≡ read_by (known_by distance) p frame.now row column }
{
    let view = view_by(distance, p, frame)?;
    Ok(shown_at(view.rows, view.columns, frame, row, column))
}

// What the plain reader shows of one place. It asks the frame rule for each; to read many places, take a view.
pub fn read_plain(p: usize, frame: &[i64], row: usize, column: usize) -> Result<CellWords, Refusal>
    ensures { result ≡ read_plain p frame.now row column }
{
    read_by(false, p, frame, row, column)
}

// What the distance reader shows of one place.
pub fn read_distance(
    p: usize,
    frame: &[i64],
    row: usize,
    column: usize,
) -> Result<CellWords, Refusal>
    ensures { result ≡ read_distance p frame.now row column }
{
    read_by(true, p, frame, row, column)
}
