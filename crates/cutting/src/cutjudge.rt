// The refusals of two tables and boundaries before rows are compared: 1, 10 and 11 by the options, 5, 12. Nothing is altered here.
ghost use Rattle.std.specs.Prelude.{◌≡◌, ◌≤◌, length};
ghost use Rattle.order.specs.options.Options.{options_of};
ghost use Rattle.cutting.specs.cutpairs.Driver.{input_judged};

use callrules::judges::judge_open;
use callrules::listed::lacks_code;
use frames::refusals::Refusal;
use order::options::{Rules, left_columns, right_columns};
use rows::framerule::{is_frame, is_table};

// All three must be what they are to be before the list of ranks is asked.
pub fn judge_input(
    left: &[i64],
    right: &[i64],
    boundaries: &[i64],
    rules: Rules<'_>,
) -> Result<(), Refusal>
    requires { (64 ≤ length rules.codes.now) × (64 ≤ length rules.rising.now) }
    ensures { result ≡ input_judged (options_of rules.entry) left.now right.now boundaries.now }
{
    judge_open(rules)?;
    let c = left_columns(rules.terms);
    let w = right_columns(rules.terms);
    if !is_table(left, c) {
        return Err(Refusal::BadFrame);
    }
    if !is_table(right, w) {
        return Err(Refusal::BadFrame);
    }
    if !is_frame(boundaries, rules.terms.by) {
        return Err(Refusal::BadFrame);
    }
    if lacks_code(left, c, rules) {
        return Err(Refusal::UnknownCode);
    }
    if lacks_code(right, w, rules) {
        return Err(Refusal::UnknownCode);
    }
    if lacks_code(boundaries, rules.terms.by, rules) {
        return Err(Refusal::UnknownCode);
    }
    Ok(())
}
