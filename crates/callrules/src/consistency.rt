// Whether the numbers of a join hold together and fit its areas, for any numbers and any areas: refusal 2.
ghost use Rattle.std.specs.Prelude.{◌≡◌, ◌≤◌, length};
ghost use Rattle.order.specs.options.Options.{refused_options, options_of};
ghost use Rattle.callrules.specs.Judged.{bad_numbers};

use frames::outcomes::above;
use order::options::{Rules, bad_options, many_carried, right_columns};
use rows::ranking::bad_ranks;

// The greatest number of right rows.
const MOST_ROWS: usize = 9223372036854775807;

// Whether opening refuses the options (SCOPE 3.9).
fn refused_options(rules: Rules<'_>) -> bool
    requires { (64 ≤ length rules.codes.now) × (64 ≤ length rules.rising.now) }
    ensures { result ≡ refused_options (options_of rules.entry) }
{
    if bad_options(rules.terms) {
        return true;
    }
    if many_carried(rules.terms) {
        return true;
    }
    bad_ranks(
        rules.terms.by,
        rules.terms.given,
        rules.terms.column,
        rules.terms.count,
        rules.codes,
        rules.rising,
    )
}

// Whether the numbers of a join, with these areas, meet refusal 2.
pub fn bad_numbers(
    rules: Rules<'_>,
    base: usize,
    held: usize,
    pruned: usize,
    start: usize,
    words: usize,
    sequence: u64,
    left: &[i64],
    right: &[i64],
) -> bool
    requires { (64 ≤ length rules.codes.now) × (64 ≤ length rules.rising.now) }
    ensures { result ≡ bad_numbers (options_of rules.entry) base held pruned start words sequence left.now right.now }
{
    if refused_options(rules) {
        return true;
    }
    let c = right_columns(rules.terms);
    if above(base, held, right.len() / (2 * c)) {
        return true;
    }
    if above(start, words, left.len()) {
        return true;
    }
    if above(pruned, held, MOST_ROWS) {
        return true;
    }
    sequence % 2 == 1
}
