// The refusals of a plan before rows are compared: 1, 10 and 11 by the options, 5, 12. Nothing is altered here.
ghost use Rattle.std.specs.Prelude.{◌≡◌, ◌≤◌, length};
ghost use Rattle.order.specs.options.Options.{options_of};
ghost use Rattle.planning.specs.planjudge.Judged.{tables_judged};

use callrules::judges::judge_open;
use callrules::listed::lacks_code;
use frames::refusals::Refusal;
use order::options::{Rules, left_columns, right_columns};
use rows::framerule::is_table;

// A left table and a right one, under these options: both must be tables of their columns before the list of ranks is asked.
pub fn judge_tables(left: &[i64], right: &[i64], rules: Rules<'_>) -> Result<(), Refusal>
    requires { (64 ≤ length rules.codes.now) × (64 ≤ length rules.rising.now) }
    ensures { result ≡ tables_judged (options_of rules.entry) left.now right.now }
{
    judge_open(rules)?;
    let c = left_columns(rules.terms);
    let w = right_columns(rules.terms);
    if !is_table(left, c) {
        return Err(Refusal::BadFrame);
    }
    if !is_table(right, w) {
        return Err(Refusal::BadFrame);
    }
    if lacks_code(left, c, rules) {
        return Err(Refusal::UnknownCode);
    }
    if lacks_code(right, w, rules) {
        return Err(Refusal::UnknownCode);
    }
    Ok(())
}
