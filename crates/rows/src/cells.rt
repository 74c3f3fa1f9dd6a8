// Cells compared, by number or by their places in a list; and the distance of two keys.
ghost use Rattle.std.specs.Prelude.{◌≡◌, [], ◌-ℤ◌, unsigned_abs};
ghost use Rattle.std.specs.Int.{w64};
ghost use Rattle.std.proofs.Common.{of_z};
ghost use Rattle.frames.specs.Cells.{cell_of};
ghost use Rattle.order.specs.ranks.Ranks.{Indexed};
ghost use Rattle.order.specs.Order.{cmp_z, cmp_value, cmp_cell};

use crate::ranking::place_of;
use std::cmp::Ordering;

// Two values, as numbers.
fn cmp_value(a: i64, b: i64) -> Ordering
    ensures { result ≡ cmp_z a b }
{
    if a < b {
        return Ordering::Less;
    }
    if b < a {
        return Ordering::Greater;
    }
    Ordering::Equal
}

// Two cells of a column without a list, each by its value and its mark.
pub fn cmp_cell(va: i64, ma: i64, vb: i64, mb: i64, descending: bool, nulls_last: bool) -> Ordering
    ensures { result ≡ cmp_cell (record { descending = descending; nulls_last = nulls_last; codes = [] }) (cell_of va ma) (cell_of vb mb) }
{
    if ma == 0 {
        if mb == 0 {
            return Ordering::Equal;
        }
        if nulls_last {
            return Ordering::Greater;
        }
        return Ordering::Less;
    }
    if mb == 0 {
        if nulls_last {
            return Ordering::Less;
        }
        return Ordering::Greater;
    }
    if descending {
        return cmp_value(vb, va);
    }
    cmp_value(va, vb)
}

// Two values by their places in a list; values that it lacks stand behind, by number.
fn cmp_place(a: i64, b: i64, codes: &[i64], rising: &[u8]) -> Ordering
    requires { Indexed codes.now rising.now }
    ensures { result ≡ cmp_value codes.now a b }
{
    if a == b {
        return Ordering::Equal;
    }
    let p = place_of(codes, rising, a);
    let q = place_of(codes, rising, b);
    if p < q {
        return Ordering::Less;
    }
    if q < p {
        return Ordering::Greater;
    }
    cmp_value(a, b)
}

// Two cells of a column with a list.
pub fn cmp_listed(
    va: i64,
    ma: i64,
    vb: i64,
    mb: i64,
    descending: bool,
    nulls_last: bool,
    codes: &[i64],
    rising: &[u8],
) -> Ordering
    requires { Indexed codes.now rising.now }
    ensures { result ≡ cmp_cell (record { descending = descending; nulls_last = nulls_last; codes = codes.now }) (cell_of va ma) (cell_of vb mb) }
{
    if ma == 0 {
        return cmp_cell(va, ma, vb, mb, descending, nulls_last);
    }
    if mb == 0 {
        return cmp_cell(va, ma, vb, mb, descending, nulls_last);
    }
    if descending {
        return cmp_place(vb, va, codes, rising);
    }
    cmp_place(va, vb, codes, rising)
}

// The unsigned image of a: its bits as a number from 0 to 2^64 - 1.
fn image(a: i64) -> u64
    ensures { result ≡ of_z w64 a }
{
    if a < 0 {
        let n = !a;
        return !(n as u64);
    }
    a as u64
}

// The distance of two keys: the greater less the smaller, up to 2^64 - 1.
pub fn distance(a: i64, b: i64) -> u64
    ensures { result ≡ unsigned_abs (a -ℤ b) }
{
    if a < b {
        return std::num::wrapping_sub_u64(image(b), image(a));
    }
    std::num::wrapping_sub_u64(image(a), image(b))
}
