// A move to other areas, over structs of numbers: it reads the join, makes the call and hands the join back in numbers.
ghost use Rattle.hostcalls.specs.CallContracts.{HostMoveContract};

use ffi::convert::{HostJoin, is_join, join_of};
use ffi::results::{HostTook, bad_took};
use node::moving::move_join;

// Moves a join with what waits and what is held to new areas. The old ones are only read.
pub fn host_move(
    h: HostJoin,
    left: &[i64],
    right: &[i64],
    new_left: &mut [i64],
    new_right: &mut [i64],
) -> HostTook
    ensures { HostMoveContract h left.now right.now new_left.old new_right.old result new_left.new new_right.new }
{
    if is_join(h) {
        return move_join(join_of(h), left, right, new_left, new_right).into();
    }
    bad_took(h)
}
