// The refusals of takings that come before rows are judged: 1, 10 and 11 by the options, 5, 12, 13. Nothing is altered here.
ghost use Rattle.std.specs.Prelude.{◌≡◌, true, ◌&&◌, ◌≤◌, eqb, length};
ghost use Rattle.frames.specs.Frame.{is_frame, row_count};
ghost use Rattle.order.specs.options.Options.{without_list, options_of};
ghost use Rattle.takings.specs.Calls.{any_frame, columns_in, known_columns};
ghost use Rattle.subtotals.specs.takewords.Judged.{tables_judged, sales_judged};

use callrules::judges::judge_open;
use callrules::listed::lacks_code;
use frames::refusals::Refusal;
use order::options::{Rules, Terms};
use rows::framerule::{is_frame, is_table, row_count};

// Two tables of subtotals: both must be tables before the list of ranks is asked.
pub fn judge_tables(table: &[i64], other: &[i64], rules: Rules<'_>) -> Result<(), Refusal>
    requires { (64 ≤ length rules.codes.now) × (64 ≤ length rules.rising.now) }
    ensures { result ≡ tables_judged (options_of rules.entry) table.now other.now }
{
    judge_open(rules)?;
    let w = rules.terms.by + 2;
    if !is_table(table, w) {
        return Err(Refusal::BadFrame);
    }
    if !is_table(other, w) {
        return Err(Refusal::BadFrame);
    }
    if lacks_code(table, w, rules) {
        return Err(Refusal::UnknownCode);
    }
    if lacks_code(other, w, rules) {
        return Err(Refusal::UnknownCode);
    }
    if rules.terms.carried == 0 {
        return Err(Refusal::BadColumns);
    }
    Ok(())
}

// Whether words are a frame of the columns that they say.
fn is_any_frame(words: &[i64]) -> bool
    ensures { result ≡ any_frame words.now }
{
    if words.len() < 2 {
        return false;
    }
    if words[1] < 0 {
        return false;
    }
    is_frame(words, words[1] as usize)
}

// Whether words are a left frame of c columns and an answer frame of as many rows.
fn are_frames(left: &[i64], answer: &[i64], c: usize) -> bool
    ensures { result ≡ (is_frame c left.now && any_frame answer.now && eqb (row_count left.now) (row_count answer.now)) }
{
    if !is_frame(left, c) {
        return false;
    }
    if !is_any_frame(answer) {
        return false;
    }
    row_count(left) == row_count(answer)
}

// Whether an answer frame has 1 + p columns or, with a distance, one more, and p is not 0.
fn is_known(answer: &[i64], o: Terms) -> bool
    requires { (any_frame answer.now ≡ true) × (o.carried ≤ 8) }
    ensures { result ≡ known_columns (without_list o) (columns_in answer.now) }
{
    let p = o.carried;
    if p == 0 {
        return false;
    }
    let d = answer[1] as usize;
    if d == p + 1 {
        return true;
    }
    d == p + 2
}

// A table of subtotals, a left frame and its answer frame: all must be what they are to be before the list of ranks is asked.
pub fn judge_sales(
    table: &[i64],
    left: &[i64],
    answer: &[i64],
    rules: Rules<'_>,
) -> Result<(), Refusal>
    requires { (64 ≤ length rules.codes.now) × (64 ≤ length rules.rising.now) }
    ensures { result ≡ sales_judged (options_of rules.entry) table.now left.now answer.now }
{
    judge_open(rules)?;
    let by = rules.terms.by;
    let w = by + 2;
    let c = by + 1;
    if !is_table(table, w) {
        return Err(Refusal::BadFrame);
    }
    if !are_frames(left, answer, c) {
        return Err(Refusal::BadFrame);
    }
    if lacks_code(table, w, rules) {
        return Err(Refusal::UnknownCode);
    }
    if lacks_code(left, c, rules) {
        return Err(Refusal::UnknownCode);
    }
    if !is_known(answer, rules.terms) {
        return Err(Refusal::BadColumns);
    }
    Ok(())
}
