// The refusals of one book or two before their rows are compared: 1, 10 and 11 by the options, 5, 12. Nothing is altered here.
ghost use Rattle.std.specs.Prelude.{◌≡◌, ◌≤◌, length};
ghost use Rattle.order.specs.options.Options.{options_of};
ghost use Rattle.books.specs.bookjudge.Judged.{book_judged, books_judged};

use callrules::judges::judge_open;
use callrules::listed::lacks_code;
use frames::refusals::Refusal;
use order::options::{Rules, right_columns};
use rows::framerule::is_table;

// One book, under these options.
pub fn judge_book(book: &[i64], rules: Rules<'_>) -> Result<(), Refusal>
    requires { (64 ≤ length rules.codes.now) × (64 ≤ length rules.rising.now) }
    ensures { result ≡ book_judged (options_of rules.entry) book.now }
{
    judge_open(rules)?;
    let c = right_columns(rules.terms);
    if !is_table(book, c) {
        return Err(Refusal::BadFrame);
    }
    if lacks_code(book, c, rules) {
        return Err(Refusal::UnknownCode);
    }
    Ok(())
}

// Two books: both must be tables before the list of ranks is asked.
pub fn judge_books(house: &[i64], festival: &[i64], rules: Rules<'_>) -> Result<(), Refusal>
    requires { (64 ≤ length rules.codes.now) × (64 ≤ length rules.rising.now) }
    ensures { result ≡ books_judged (options_of rules.entry) house.now festival.now }
{
    judge_open(rules)?;
    let c = right_columns(rules.terms);
    if !is_table(house, c) {
        return Err(Refusal::BadFrame);
    }
    if !is_table(festival, c) {
        return Err(Refusal::BadFrame);
    }
    if lacks_code(house, c, rules) {
        return Err(Refusal::UnknownCode);
    }
    if lacks_code(festival, c, rules) {
        return Err(Refusal::UnknownCode);
    }
    Ok(())
}
