// Words of a table of subtotals that grows: copied, moved up to make room, a row written.
ghost use Rattle.std.specs.Prelude.{◌≡◌, [], ◌∷◌, ◌++◌, ◌+◌, ◌-◌, length, take, drop};
ghost use Rattle.std.proofs.Math.Seq.{paste};
ghost use Rattle.sales.specs.salewrite.Requires.{WordsRoom, ShiftRoom, SaleRoom};

// Writes all of `words` from place `at` on.
pub fn copy_words(body: &mut [i64], at: usize, words: &[i64])
    requires { WordsRoom at (length words.now) body.old }
    ensures { body.new ≡ paste body.old at words.now (length words.now) }
{
    // A loop: copy_from_slice calls memmove, which costs more than the few words of a row, and which a host would have to bring.
    for i in 0..words.len() {
        body[at + i] = words[i];
    }
}

// Moves the words from `from` to `to` up by w places, the last one first.
pub fn shift_up(body: &mut [i64], from: usize, to: usize, w: usize)
    requires { ShiftRoom from to w body.old }
    ensures { body.new ≡ paste body.old (from + w) (drop from body.old) (to - from) }
{
    // A loop: copy_within calls memmove, which a host would have to bring.
    for k in (from..to).rev() {
        body[k + w] = body[k];
    }
}

// Writes a row of subtotals from place `at` on: the by-values at q, the total and the count.
pub fn put_sale(
    body: &mut [i64],
    at: usize,
    values: &[i64],
    q: usize,
    by: usize,
    total: i64,
    count: i64,
)
    requires { SaleRoom at q by values.now body.old }
    ensures { body.new ≡ paste body.old at (take by (drop q values.now) ++ total ∷ count ∷ []) (by + 2) }
{
    copy_words(body, at, &values[q..q + by]);
    let t = at + by;
    body[t] = total;
    body[t + 1] = count;
}
