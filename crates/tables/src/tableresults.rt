// What the functions over tables answer, in numbers.
ghost use Rattle.std.specs.Prelude.{◌≡◌};
ghost use Rattle.tables.specs.tableresults.Numbers.{written_host};

use frames::refusals::Refusal;

// The answer of a call that writes a table: refusal is 0 and rows are so many, or the refusal's number and no row.
#[repr(C)]
#[derive(Clone, Copy)]
pub struct HostWritten {
    pub refusal: u64,
    pub rows: usize,
}

// The answer in numbers.
impl From<Result<usize, Refusal>> for HostWritten {
    ghost from_gives = { λ answer numbers. numbers ≡ written_host answer };

    fn from(answer: Result<usize, Refusal>) -> HostWritten {
        match answer {
            Ok(rows) => HostWritten { refusal: 0, rows },
            Err(refusal) => HostWritten {
                refusal: refusal.into(),
                rows: 0,
            },
        }
    }
}
