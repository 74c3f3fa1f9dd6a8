// The frame view: the host's words with their row and column counts, and a reader of cells above it.
ghost use Rattle.std.specs.Prelude.{◌≡◌, true};
ghost use Rattle.frames.specs.Cells.{cell_of};
ghost use Rattle.frames.specs.Frame.{is_frame, row_count};
ghost use Rattle.rows.specs.view.View.{Inside, value_at, mark_at, told, found_at};

// What a view keeps: the words as they were lent, and their counts.
#[derive(Clone, Copy)]
pub struct FrameView<'a> {
    pub words: &'a [i64],
    pub rows: usize,
    pub columns: usize,
}

// What a reader is told of a cell: its value, that it is null, or that there is no such cell. Three cases: an Option in an Option would leave two of them without a name.
#[derive(Clone, Copy)]
pub enum Found {
    Value(i64),
    Null,
    Nothing,
}

// The value of a cell of a frame, where it stands among the words.
fn value_in(words: &[i64], columns: usize, row: usize, column: usize) -> i64
    requires { Inside words.now (row_count words.now) columns row column }
    ensures { result ≡ value_at columns words.now row column }
{
    words[2 + (row * columns + column)]
}

// Its mark, as far behind the value as the frame has values.
fn mark_in(words: &[i64], rows: usize, columns: usize, row: usize, column: usize) -> i64
    requires { Inside words.now rows columns row column }
    ensures { result ≡ mark_at columns words.now row column }
{
    words[2 + rows * columns + (row * columns + column)]
}

// What a value and a mark tell.
fn found_of(value: i64, mark: i64) -> Found
    ensures { result ≡ told (cell_of value mark) }
{
    if mark == 0 {
        return Found::Null;
    }
    Found::Value(value)
}

// The view of a frame of c columns.
pub fn view<'a>(words: &'a [i64], c: usize) -> FrameView<'a>
    requires { is_frame c words.now ≡ true }
    ensures { (result.words ≡ words.entry) × (result.rows ≡ row_count words.now) × (result.columns ≡ c) }
{
    FrameView {
        words,
        rows: crate::framerule::row_count(words),
        columns: c,
    }
}

// The value of the cell in this row and column.
pub fn value<'a>(v: FrameView<'a>, row: usize, column: usize) -> i64
    requires { Inside v.words.now v.rows v.columns row column }
    ensures { result ≡ value_at v.entry.columns v.entry.words.now row column }
{
    value_in(v.words, v.columns, row, column)
}

// Its mark: 1 is present, 0 is null.
pub fn mark<'a>(v: FrameView<'a>, row: usize, column: usize) -> i64
    requires { Inside v.words.now v.rows v.columns row column }
    ensures { result ≡ mark_at v.entry.columns v.entry.words.now row column }
{
    mark_in(v.words, v.rows, v.columns, row, column)
}

// A cell of a frame of c columns, read through the view.
fn cell_in(words: &[i64], c: usize, row: usize, column: usize) -> Found
    requires { Inside words.now (row_count words.now) c row column }
    ensures { result ≡ found_at c words.now row column }
{
    let v = view(words, c);
    found_of(value(v, row, column), mark(v, row, column))
}

// The cell of any words in this row and column: nothing where they are no frame of c columns, or the place is outside of it.
pub fn read_cell(words: &[i64], c: usize, row: usize, column: usize) -> Found
    ensures { result ≡ found_at c words.now row column }
{
    if !crate::framerule::is_frame(words, c) {
        return Found::Nothing;
    }
    if crate::framerule::row_count(words) <= row {
        return Found::Nothing;
    }
    if c <= column {
        return Found::Nothing;
    }
    cell_in(words, c, row, column)
}
