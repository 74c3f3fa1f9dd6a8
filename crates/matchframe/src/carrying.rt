// The further columns of an answer: the cells that a chosen right row has behind its key, written behind its number, and the distance.
ghost use Rattle.std.specs.Prelude.{◌≡◌, true, ◌+◌, ◌*◌, set, replicate};
ghost use Rattle.frames.specs.Cells.{null, value_word, mark_word, rows_in};
ghost use Rattle.order.specs.options.Options.{without_list, answer_columns};
ghost use Rattle.order.specs.Order.{distance};
ghost use Rattle.order.specs.Requires.{cell_at, CellIn};
ghost use Rattle.matching.specs.Answer.{distance_cell};
ghost use Rattle.tables.specs.Lay.{lay_cells, CellRoom};
ghost use Rattle.matchframe.specs.carrying.Loops.{cells_at, last_at, row_with, CellsIn, CellsRoom, ChoiceIn, RowSpread};
ghost use Rattle.matchframe.specs.carrying.Spread.{choice_at, spread, SpreadIn};

use frames::RowSlice;
use order::options::{Terms, answer_columns};
use rows::keyed::null_at;
use tables::put_cell;

// The greatest number of a word.
const MOST: u64 = 9223372036854775807;

// The cell at place q of right words goes to cell k of an answer of m cells: any mark but 0 as 1, a null as 0 and 0.
fn carry_cell(right: RowSlice<'_>, q: usize, m: usize, k: usize, out: &mut [i64])
    requires { CellIn q right.values.now right.marks.now × CellRoom m k out.old }
    ensures { out.new ≡ set (set out.old (2 + k) (value_word (cell_at q right.entry.values.now right.entry.marks.now))) (2 + m + k) (mark_word (cell_at q right.entry.values.now right.entry.marks.now)) }
{
    if null_at(right.marks, q) {
        put_cell(out, m, k, 0, 0);
    } else {
        put_cell(out, m, k, right.values[q], 1);
    }
}

// p cells from place q of right words on go to the cells from k on.
fn carry_cells(right: RowSlice<'_>, q: usize, p: usize, m: usize, k: usize, out: &mut [i64])
    requires { CellsIn q p right.values.now right.marks.now × CellsRoom m k p out.old }
    ensures { out.new ≡ lay_cells m k (cells_at q p right.entry.values.now right.entry.marks.now) out.old }
{
    for j in 0..p {
        carry_cell(right, q + j, m, k + j, out);
    }
}

// p nulls go to the cells from k on.
fn null_cells(p: usize, m: usize, k: usize, out: &mut [i64])
    requires { CellsRoom m k p out.old }
    ensures { out.new ≡ lay_cells m k (replicate p null) out.old }
{
    for j in 0..p {
        put_cell(out, m, k + j, 0, 0);
    }
}

// The choice whose number and mark stand at place i of an answer of m cells.
fn choice_at(out: &[i64], m: usize, i: usize) -> Option<usize>
    requires { ChoiceIn m i out.now }
    ensures { result ≡ choice_at m out.now i }
{
    if null_at(out, 2 + m + i) {
        return None;
    }
    Some(out[2 + i] as usize)
}

// The distance of the keys at place a of left words and at place b of right words; 0 where one is null.
fn key_distance(left: RowSlice<'_>, a: usize, right: RowSlice<'_>, b: usize) -> u64
    requires { CellIn a left.values.now left.marks.now × CellIn b right.values.now right.marks.now }
    ensures { result ≡ distance (cell_at b right.entry.values.now right.entry.marks.now) (cell_at a left.entry.values.now left.entry.marks.now) }
{
    if null_at(right.marks, b) {
        return 0;
    }
    if null_at(left.marks, a) {
        return 0;
    }
    rows::cells::distance(right.values[b], left.values[a])
}

// A distance goes to cell k of an answer of m cells: null where it is above the greatest number of a word.
fn put_distance(d: u64, m: usize, k: usize, out: &mut [i64])
    requires { CellRoom m k out.old }
    ensures { out.new ≡ set (set out.old (2 + k) (value_word (distance_cell d))) (2 + m + k) (mark_word (distance_cell d)) }
{
    if MOST < d {
        put_cell(out, m, k, 0, 0);
    } else {
        put_cell(out, m, k, d as i64, 1);
    }
}

// Where the distance is written it goes to cell k: that of the left key at place a from the key of the right row whose words start at place q.
fn put_last(
    left: RowSlice<'_>,
    a: usize,
    right: RowSlice<'_>,
    q: usize,
    o: Terms,
    m: usize,
    k: usize,
    out: &mut [i64],
)
    requires { CellIn a left.values.now left.marks.now × CellIn (q + o.by) right.values.now right.marks.now × (o.with_distance ≡ true → CellRoom m k out.old) }
    ensures { out.new ≡ lay_cells m k (last_at (without_list o) (cell_at a left.entry.values.now left.entry.marks.now) q right.entry.values.now right.entry.marks.now) out.old }
{
    if o.with_distance {
        let d = key_distance(left, a, right, q + o.by);
        put_distance(d, m, k, out);
    }
}

// Row i of an answer of m cells, whose choice stands at place i: the number goes to the row's first cell, what its right row carries goes behind it, and last the distance where it is written; of none all cells are null.
fn spread_row(
    i: usize,
    left: RowSlice<'_>,
    right: RowSlice<'_>,
    number: usize,
    o: Terms,
    m: usize,
    out: &mut [i64],
)
    requires { RowSpread (without_list o) i left.width left.values.now left.marks.now right.width right.values.now right.marks.now number m out.old }
    ensures { out.new ≡ lay_cells m (i * answer_columns (without_list o)) (row_with (without_list o) number right.entry.width right.entry.values.now right.entry.marks.now (cell_at (i * left.entry.width + o.by) left.entry.values.now left.entry.marks.now) (choice_at m out.old i)) out.old }
{
    let c = answer_columns(o);
    let k = i * c;
    let choice = choice_at(out, m, i);
    match choice {
        Some(chosen) => {
            put_cell(out, m, k, chosen as i64, 1);
            let q = (chosen - number) * right.width;
            carry_cells(right, q + o.by + 1, o.carried, m, k + 1, out);
            let a = i * left.width + o.by;
            put_last(left, a, right, q, o, m, k + 1 + o.carried, out);
        }
        None => {
            null_cells(c, m, k, out);
        }
    }
}

// n rows of an answer of m cells, of which the numbers stand at its first places, are spread over all its columns, from the last one on: each number goes to its row, and what the right row of that number carries goes behind it.
pub fn spread_rows(
    left: RowSlice<'_>,
    right: RowSlice<'_>,
    number: usize,
    o: Terms,
    m: usize,
    out: &mut [i64],
)
    requires { SpreadIn (without_list o) left.count left.width left.values.now left.marks.now right.width right.count right.values.now right.marks.now number m out.old }
    ensures { out.new ≡ spread (without_list o) number (rows_in right.entry) (rows_in left.entry) m out.old }
{
    for i in (0..left.count).rev() {
        spread_row(i, left, right, number, o, m, out);
    }
}
