// The answer of a turn: of rows that the order check has found sorted, and of rows in any order.
ghost use Rattle.std.specs.Prelude.{◌≡◌, true, ◌*◌};
ghost use Rattle.frames.specs.Cells.{rows_in};
ghost use Rattle.order.specs.options.Options.{answer_columns, is_on, options_of};
ghost use Rattle.matching.specs.Answer.{answered, frame_answer};
ghost use Rattle.matching.specs.Requires.{AnswerRoom};
ghost use Rattle.matchframe.specs.sortedrows.Requires.{BothSorted};

use crate::match_frame;
use crate::sortedrows::match_sorted;
use frames::RowSlice;
use order::options::{Rules, checks};

// The answer of nl left rows over nr held rows, of which the first has the number `number`, whole. With the check on both are sorted, and no run is asked for that again.
pub fn answer_turn(
    left: RowSlice<'_>,
    right: RowSlice<'_>,
    number: usize,
    rules: Rules<'_>,
    out: &mut [i64],
)
    requires { AnswerRoom (options_of rules) left.width left.count left.values.now left.marks.now right.width right.count right.values.now right.marks.now number (left.count * answer_columns (options_of rules)) out.old × (is_on rules.terms.check ≡ true → BothSorted (options_of rules) left.width left.count left.values.now left.marks.now right.width right.count right.values.now right.marks.now) }
    ensures { out.new ≡ answered (options_of rules.entry) (frame_answer (options_of rules.entry) number (rows_in right.entry) (rows_in left.entry)) out.old }
{
    if checks(rules.terms) {
        match_sorted(left, right, number, rules, out);
        return;
    }
    match_frame(left, right, number, rules, out);
}
