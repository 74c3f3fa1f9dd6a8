// Remembered rows and joins in numbers, and back.
ghost use Rattle.std.specs.Prelude.{◌≡◌, true};
ghost use Rattle.ffi.specs.convert.Convert.{row_of, encode_row, is_join, join_of, encode};

use crate::codes::{flag_code, flag_of, is_code, is_flag, state_of};
use crate::hostoptions::{HostOptions, is_options, kept_ranks, options_with};
use node::Join;
use order::Row;

// The layout of a join in numbers: its first word. The bytes "rowkeep", then the layout's version.
pub const LAYOUT: u64 = 0x726f_776b_6565_7004;

// A row that a side remembers, where some is 1.
#[repr(C)]
#[derive(Clone, Copy)]
pub struct HostRow {
    pub some: u64,
    pub values: [i64; 5],
    pub marks: [i64; 5],
}

// The join in numbers. State is 0 Running, 1 Flush, 2 Done; rising has the places of the list of ranks by rising code.
#[repr(C)]
#[derive(Clone, Copy)]
pub struct HostJoin {
    pub layout: u64,
    pub options: HostOptions,
    pub rising: [u8; 64],
    pub base: usize,
    pub held: usize,
    pub pruned: usize,
    pub queue_start: usize,
    pub queue_words: usize,
    pub state: u64,
    pub right_ended: u64,
    pub failed: u64,
    pub sequence: u64,
    pub last_left: HostRow,
    pub last_right: HostRow,
}

// The remembered row that the numbers tell.
pub fn row_of(h: HostRow) -> Row
    ensures { result ≡ row_of h }
{
    let values = h.values;
    let marks = h.marks;
    Row {
        some: flag_of(h.some),
        values,
        marks,
    }
}

// The numbers of a remembered row.
impl From<Row> for HostRow {
    ghost from_gives = { λ m row. row ≡ encode_row m };

    fn from(m: Row) -> HostRow {
        let values = m.values;
        let marks = m.marks;
        HostRow {
            some: flag_code(m.some),
            values,
            marks,
        }
    }
}

// Whether the numbers tell a join.
#[tactic(auto, unfolding(crate::specs::convert::Convert::is_join))]
pub fn is_join(h: HostJoin) -> bool
    ensures { result ≡ is_join h }
{
    h.layout == LAYOUT
        && ((is_options(h.options) && is_code(h.state))
            && ((is_flag(h.right_ended) && is_flag(h.failed))
                && (is_flag(h.last_left.some) && is_flag(h.last_right.some))))
}

// The join that the numbers tell.
pub fn join_of(h: HostJoin) -> Join
    requires { is_join h ≡ true }
    ensures { result ≡ join_of h }
{
    let rising = h.rising;
    let k = kept_ranks(h.options.ranks, rising);
    let options = options_with(h.options, k);
    Join {
        options,
        base: h.base,
        held: h.held,
        pruned: h.pruned,
        queue_start: h.queue_start,
        queue_words: h.queue_words,
        state: state_of(h.state),
        right_ended: flag_of(h.right_ended),
        failed: flag_of(h.failed),
        sequence: h.sequence,
        last_left: row_of(h.last_left),
        last_right: row_of(h.last_right),
    }
}

// The numbers of a join.
impl From<Join> for HostJoin {
    ghost from_gives = { λ j numbers. numbers ≡ encode j };

    fn from(j: Join) -> HostJoin {
        let rising = j.options.ranks.rising;
        HostJoin {
            layout: LAYOUT,
            options: j.options.into(),
            rising,
            base: j.base,
            held: j.held,
            pruned: j.pruned,
            queue_start: j.queue_start,
            queue_words: j.queue_words,
            state: j.state.into(),
            right_ended: flag_code(j.right_ended),
            failed: flag_code(j.failed),
            sequence: j.sequence,
            last_left: j.last_left.into(),
            last_right: j.last_right.into(),
        }
    }
}
