// Nulls by their marks: of a group, and of the keys of rows. The values beside the marks may be any.
ghost use Rattle.std.specs.Prelude.{◌≡◌, ℕ, ◌+◌, ◌*◌, ◌<◌, ◌≤◌, length};
ghost use Rattle.frames.specs.Cells.{Words, is_null, row_from, rows_of};
ghost use Rattle.order.specs.options.Options.{without_list};
ghost use Rattle.order.specs.Order.{null_key, null_group};
ghost use Rattle.order.specs.Keyed.{first_keyed, last_keyed};
ghost use Rattle.order.specs.Requires.{cell_at, MarkIn, MarksAt, KeysIn};

use order::options::Terms;

// Whether the cell at place k is null.
pub fn null_at(marks: &[i64], k: usize) -> bool
    requires { MarkIn k marks.now }
    ensures { (vs : Words) → result ≡ is_null (cell_at k vs marks.now) }
{
    marks[k] == 0
}

// Whether the key of the row at p is null, whatever the row's width.
pub(crate) fn null_key(marks: &[i64], p: usize, o: Terms) -> bool
    requires { MarksAt (without_list o) p marks.now }
    ensures { (w : ℕ) (vs : Words) → o.by < w → p + o.by < length vs → result ≡ null_key (without_list o) (row_from w p vs marks.now) }
{
    null_at(marks, p + o.by)
}

// Whether the group of the row at p is null, whatever the row's width.
pub fn null_group(marks: &[i64], p: usize, o: Terms) -> bool
    requires { MarksAt (without_list o) p marks.now }
    ensures { (w : ℕ) (vs : Words) → o.by < w → p + o.by < length vs → result ≡ null_group (without_list o) (row_from w p vs marks.now) }
{
    for j in 0..o.by {
        if null_at(marks, p + j) {
            return true;
        }
    }
    false
}

// The first row with a key, of n rows that are each w wide.
pub fn first_keyed(marks: &[i64], n: usize, w: usize, o: Terms) -> Option<usize>
    requires { KeysIn (without_list o) w n marks.now }
    ensures { (vs : Words) → n * w ≤ length vs → result ≡ first_keyed (without_list o) (rows_of w n vs marks.now) }
{
    let mut p = 0;
    for i in 0..n {
        if !null_key(marks, p, o) {
            return Some(i);
        }
        p += w;
    }
    None
}

// The last row with a key, of n rows that are each w wide.
pub fn last_keyed(marks: &[i64], n: usize, w: usize, o: Terms) -> Option<usize>
    requires { KeysIn (without_list o) w n marks.now }
    ensures { (vs : Words) → n * w ≤ length vs → result ≡ last_keyed (without_list o) (rows_of w n vs marks.now) }
{
    let mut p = n * w;
    for i in (0..n).rev() {
        p -= w;
        if !null_key(marks, p, o) {
            return Some(i);
        }
    }
    None
}
