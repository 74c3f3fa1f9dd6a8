// Whether two areas are long enough for each pair of parts of two sorted tables, cut at boundaries.
ghost use Rattle.std.specs.Prelude.{◌≡◌, ◌*◌, ◌^◌, ◌≤◌, ◌<◌, leb, drop};
ghost use Rattle.frames.specs.Cells.{rows_of, row_from, rows_in};
ghost use Rattle.order.specs.options.Options.{options_of};
ghost use Rattle.planning.specs.Heights.{full_heights};
ghost use Rattle.cutting.specs.boundaries.Boundaries.{cut_at};
ghost use Rattle.cutting.specs.boundaries.Requires.{CutIn};
ghost use Rattle.cutting.specs.cutpairs.Cut.{cut_by};
ghost use Rattle.cutting.specs.cutpairs.Driver.{words_for, too_short, any_short};
ghost use Rattle.cutting.specs.cutroom.Requires.{pair_in, parts_in, PartsIn, CutsIn};
ghost use Rattle.cutting.specs.cutroom.Words.{head_words};

use crate::boundaries::cut_place;
use frames::RowSlice;
use matchframe::turnrows::from_row;
use order::options::Rules;
use planning::fullplan::most_held;

// The words before the rows of n rows' full frames.
fn head_words(n: usize) -> usize
    ensures { result ≡ head_words n }
{
    let full = n / 4096;
    if full * 4096 < n {
        return 2 * full + 2;
    }
    2 * full
}

// Whether the full frames of n rows, each c wide, have room in l words. No sum is made that might wrap.
fn holds_frames(n: usize, c: usize, l: usize) -> bool
    requires { n * c < 2 ^ 63 }
    ensures { result ≡ leb (words_for c (full_heights n)) l }
{
    let heads = head_words(n);
    if l < heads {
        return false;
    }
    2 * (n * c) <= l - heads
}

// Whether areas of l and r words are too short for the pair of n left rows from row a on and m right rows from row b on.
fn too_short(
    left: RowSlice<'_>,
    a: usize,
    n: usize,
    right: RowSlice<'_>,
    b: usize,
    m: usize,
    l: usize,
    r: usize,
    rules: Rules<'_>,
) -> bool
    requires { PartsIn (options_of rules) a left.width n left.values.now left.marks.now b right.width m right.values.now right.marks.now }
    ensures { result ≡ too_short (options_of rules.entry) l r (parts_in a left.entry.width n left.entry.values.now left.entry.marks.now b right.entry.width m right.entry.values.now right.entry.marks.now) }
{
    if !holds_frames(n, left.width, l) {
        return true;
    }
    let xv = from_row(left.values, a, left.width);
    let xm = from_row(left.marks, a, left.width);
    let yv = from_row(right.values, b, right.width);
    let ym = from_row(right.marks, b, right.width);
    r / (2 * right.width)
        < most_held(
            RowSlice {
                values: xv,
                marks: xm,
                count: n,
                width: left.width,
            },
            RowSlice {
                values: yv,
                marks: ym,
                count: m,
                width: right.width,
            },
            rules,
        )
}

// Where n sorted rows, each w wide, are cut by the boundary at p, counted from row a on.
fn cut_behind(
    rows: RowSlice<'_>,
    a: usize,
    bounds: RowSlice<'_>,
    p: usize,
    rules: Rules<'_>,
) -> usize
    requires { CutIn (options_of rules) rows.width rows.count rows.values.now rows.marks.now p bounds.values.now bounds.marks.now × (a ≤ rows.count) }
    ensures { result ≡ cut_at (options_of rules.entry) (row_from rules.entry.terms.by p bounds.entry.values.now bounds.entry.marks.now) (drop a (rows_in rows.entry)) }
{
    let vs = from_row(rows.values, a, rows.width);
    let ms = from_row(rows.marks, a, rows.width);
    cut_place(
        RowSlice {
            values: vs,
            marks: ms,
            count: rows.count - a,
            width: rows.width,
        },
        bounds,
        p,
        rules,
    )
}

// Whether they are too short for any pair of nl left rows and nr right rows, cut at k boundaries. Each boundary cuts what is behind the one before it: a and b rows stand before that.
pub fn any_short(
    left: RowSlice<'_>,
    right: RowSlice<'_>,
    bounds: RowSlice<'_>,
    l: usize,
    r: usize,
    rules: Rules<'_>,
) -> bool
    requires { CutsIn (options_of rules) left.width left.count left.values.now left.marks.now right.width right.count right.values.now right.marks.now bounds.count bounds.values.now bounds.marks.now }
    ensures { result ≡ any_short (options_of rules.entry) l r (cut_by (options_of rules.entry) (rows_of rules.entry.terms.by bounds.entry.count bounds.entry.values.now bounds.entry.marks.now) (pair_in left.entry.width left.entry.count left.entry.values.now left.entry.marks.now right.entry.width right.entry.count right.entry.values.now right.entry.marks.now)) }
{
    let mut a = 0;
    let mut b = 0;
    for i in 0..bounds.count {
        let p = i * rules.terms.by;
        let n = cut_behind(left, a, bounds, p, rules);
        let m = cut_behind(right, b, bounds, p, rules);
        if too_short(left, a, n, right, b, m, l, r, rules) {
            return true;
        }
        a += n;
        b += m;
    }
    let n = left.count - a;
    let m = right.count - b;
    too_short(left, a, n, right, b, m, l, r, rules)
}
