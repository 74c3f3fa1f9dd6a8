// Whether a join and its areas hold together, for any field values and any areas.
ghost use Rattle.std.specs.Prelude.{◌≡◌};
ghost use Rattle.node.specs.State.{bad_join};

use crate::Join;
use callrules::consistency::bad_numbers;

// Whether the join, with these areas, meets refusal 2.
pub fn bad_join(j: Join, left: &[i64], right: &[i64]) -> bool
    ensures { result ≡ bad_join j left.now right.now }
{
    bad_numbers(
        j.options.rules(),
        j.base,
        j.held,
        j.pruned,
        j.queue_start,
        j.queue_words,
        j.sequence,
        left,
        right,
    )
}
