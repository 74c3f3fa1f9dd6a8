// The answer readers, in numbers.
ghost use Rattle.std.specs.Prelude.{◌≡◌};
ghost use Rattle.readers.specs.Reader.{view_plain, view_distance, read_plain, read_distance};
ghost use Rattle.readers.specs.Places.{shown_at};
ghost use Rattle.hosttables.specs.readhost.Numbers.{viewed_host, cell_host, shown_host};

use frames::refusals::Refusal;
use readers::readcalls::{read_distance, read_plain, shown_at, view_distance, view_plain};
use readers::{CellWords, View};

// What a view tells: refusal is 0 and the frame has so many rows and columns, or the refusal's number and zeros.
#[repr(C)]
#[derive(Clone, Copy)]
pub struct HostViewed {
    pub refusal: u64,
    pub rows: usize,
    pub columns: usize,
}

// The two words of a place.
#[repr(C)]
#[derive(Clone, Copy)]
pub struct HostCell {
    pub value: i64,
    pub mark: i64,
}

// What a reader shows of a place: refusal is 0 and these are its two words, or the refusal's number and zeros.
#[repr(C)]
#[derive(Clone, Copy)]
pub struct HostShown {
    pub refusal: u64,
    pub value: i64,
    pub mark: i64,
}

// A view in numbers.
impl From<Result<View, Refusal>> for HostViewed {
    ghost from_gives = { λ answer numbers. numbers ≡ viewed_host answer };

    fn from(answer: Result<View, Refusal>) -> HostViewed {
        match answer {
            Ok(view) => HostViewed {
                refusal: 0,
                rows: view.rows,
                columns: view.columns,
            },
            Err(refusal) => HostViewed {
                refusal: refusal.into(),
                rows: 0,
                columns: 0,
            },
        }
    }
}

// What a reader shows, in numbers.
impl From<Result<CellWords, Refusal>> for HostShown {
    ghost from_gives = { λ answer numbers. numbers ≡ shown_host answer };

    fn from(answer: Result<CellWords, Refusal>) -> HostShown {
        match answer {
            Ok(cell) => HostShown {
                refusal: 0,
                value: cell.value,
                mark: cell.mark,
            },
            Err(refusal) => HostShown {
                refusal: refusal.into(),
                value: 0,
                mark: 0,
            },
        }
    }
}

// The plain reader's view of a frame.
pub fn view_plain_host(p: usize, frame: &[i64]) -> HostViewed
    ensures { result ≡ viewed_host (view_plain p frame.now) }
{
    HostViewed::from(view_plain(p, frame))
}

// The distance reader's view of a frame.
pub fn view_distance_host(p: usize, frame: &[i64]) -> HostViewed
    ensures { result ≡ viewed_host (view_distance p frame.now) }
{
    HostViewed::from(view_distance(p, frame))
}

// The two words of a place, by the rows and columns that a view told.
pub fn view_cell_host(
    rows: usize,
    columns: usize,
    frame: &[i64],
    row: usize,
    column: usize,
) -> HostCell
    ensures { result ≡ cell_host (shown_at rows columns frame.now row column) }
{
    let w = shown_at(rows, columns, frame, row, column);
    HostCell {
        value: w.value,
        mark: w.mark,
    }
}

// What the plain reader shows of one place.
pub fn read_plain_host(p: usize, frame: &[i64], row: usize, column: usize) -> HostShown
    ensures { result ≡ shown_host (read_plain p frame.now row column) }
{
    HostShown::from(read_plain(p, frame, row, column))
}

// What the distance reader shows of one place.
pub fn read_distance_host(p: usize, frame: &[i64], row: usize, column: usize) -> HostShown
    ensures { result ≡ shown_host (read_distance p frame.now row column) }
{
    HostShown::from(read_distance(p, frame, row, column))
}
