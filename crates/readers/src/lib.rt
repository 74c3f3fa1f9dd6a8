// The two readers of answer frames. A view checks a frame once and then reads any number of cells.
#![tactic(auto)]

pub mod readcalls;

// What a view tells of a frame: its rows and its columns.
#[derive(Clone, Copy, PartialEq, Eq, Debug)]
pub struct View {
    pub rows: usize,
    pub columns: usize,
}

// The two words of a cell: its value, and its mark, 1 for a value and 0 for null.
#[derive(Clone, Copy, PartialEq, Eq, Debug)]
pub struct CellWords {
    pub value: i64,
    pub mark: i64,
}
