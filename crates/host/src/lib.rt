// The calls for C, over structs of 64-bit numbers and the words that the host passes. Each calls one function of hostjoin, hosttables or ffi; crates/host_c exports them.
#![tactic(auto)]

ghost use Rattle.std.specs.Prelude.{◌≡◌, length};
ghost use Rattle.hostcalls.specs.CallContracts.{HostOpenContract, HostLeftContract, HostRightContract, HostEndContract, HostMoveContract, HostPortsContract, HostTurnContract, HostRunContract};
ghost use Rattle.hosttables.specs.bookhost.Calls.{HostMergeContract, HostStandContract};
ghost use Rattle.hosttables.specs.cuthost.Calls.{HostCutContract};
ghost use Rattle.hosttables.specs.cutjoinhost.Calls.{HostPairsContract};
ghost use Rattle.hosttables.specs.takehost.Calls.{HostAddContract, HostJoinContract};
ghost use Rattle.hosttables.specs.spanhost.Call.{HostSpanContract};
ghost use Rattle.hosttables.specs.planhost.Call.{planned_host, plan_host};
ghost use Rattle.readers.specs.Reader.{view_plain, view_distance, read_plain, read_distance};
ghost use Rattle.readers.specs.Places.{shown_at};
ghost use Rattle.hosttables.specs.readhost.Numbers.{viewed_host, cell_host, shown_host};
ghost use Rattle.ffi.specs.version.Version.{version_now};

pub use ffi::convert::{HostJoin, HostRow};
pub use ffi::hostoptions::{HostOptions, HostRanks};
pub use ffi::results::{HostPorted, HostRan, HostTook, HostTurned};
use ffi::version::version_now;
use hostjoin::hostfeed::{host_end_right, host_left, host_open, host_right};
use hostjoin::hostmove::host_move;
use hostjoin::hostturn::{host_ports, host_run, host_turn};
use hosttables::bookhost::{merge_host, standing_host};
use hosttables::cuthost::cut_host;
use hosttables::cutjoinhost::join_cut_host;
pub use hosttables::planhost::HostPlanned;
use hosttables::planhost::plan_host;
use hosttables::readhost::{
    read_distance_host, read_plain_host, view_cell_host, view_distance_host, view_plain_host,
};
pub use hosttables::readhost::{HostCell, HostShown, HostViewed};
use hosttables::spanhost::spans_host;
pub use hosttables::takehost::HostTaken;
use hosttables::takehost::{add_host, join_host};
pub use tables::tableresults::HostWritten;

// Opens a join. The join of a refused opening holds the options that came, and every call but a run of no turns answers 2 to it.
pub fn rowkeeper_open(h: HostOptions) -> HostTook
    ensures { HostOpenContract h result }
{
    host_open(h)
}

// Takes a left frame into the left area, behind those that wait.
pub fn rowkeeper_left(h: HostJoin, left: &mut [i64], right: &[i64], frame: &[i64]) -> HostTook
    ensures { HostLeftContract h left.old right.now frame.now result left.new }
{
    host_left(h, left, right, frame)
}

// Takes a right frame's rows into the right area, behind the held ones.
pub fn rowkeeper_right(h: HostJoin, left: &[i64], right: &mut [i64], frame: &[i64]) -> HostTook
    ensures { HostRightContract h left.now right.old frame.now result right.new }
{
    host_right(h, left, right, frame)
}

// Ends right: no right frame comes any more.
pub fn rowkeeper_end_right(h: HostJoin, left: &[i64], right: &[i64]) -> HostTook
    ensures { HostEndContract h left.now right.now result }
{
    host_end_right(h, left, right)
}

// Moves a join with what waits and what is held to new areas, of any lengths. The old ones are only read.
pub fn rowkeeper_move(
    h: HostJoin,
    left: &[i64],
    right: &[i64],
    new_left: &mut [i64],
    new_right: &mut [i64],
) -> HostTook
    ensures { HostMoveContract h left.now right.now new_left.old new_right.old result new_left.new new_right.new }
{
    host_move(h, left, right, new_left, new_right)
}

// A port call: l, r and s are what left, right and send come with.
pub fn rowkeeper_ports(
    h: HostJoin,
    left: &[i64],
    right: &[i64],
    l: u64,
    r: u64,
    s: u64,
) -> HostPorted
    ensures { HostPortsContract h left.now right.now l r s result }
{
    host_ports(h, left, right, l, r, s)
}

// One turn: the front of the queue is matched with the held rows, and its matches are written into the output.
pub fn rowkeeper_turn(h: HostJoin, left: &[i64], right: &[i64], out: &mut [i64]) -> HostTurned
    ensures { HostTurnContract h left.now right.now out.old result out.new }
{
    host_turn(h, left, right, out)
}

// At most k turns, each writing behind the one before; the first that does not write ends it.
pub fn rowkeeper_run(h: HostJoin, k: usize, left: &[i64], right: &[i64], out: &mut [i64]) -> HostRan
    ensures { HostRunContract h k left.now right.now out.old result out.new }
{
    host_run(h, k, left, right, out)
}

// The version of this library as a number: major × 1,000,000 + minor × 1,000 + patch.
pub fn rowkeeper_version() -> u64
    ensures { result ≡ version_now }
{
    version_now()
}

// Lists which points each interval covers; lower and upper tell whether a bound is inclusive. No join has a part in it.
pub fn rowkeeper_spans(
    points: &[i64],
    intervals: &[i64],
    lower: u64,
    upper: u64,
    out: &mut [i64],
) -> HostWritten
    ensures { HostSpanContract lower upper points.now intervals.now out.old result out.new }
{
    spans_host(points, intervals, lower, upper, out)
}

// Merges two sorted books into one sorted table: every row of both, and of rows that compare equal the house's first. No join has a part in it.
pub fn rowkeeper_merge(
    h: HostOptions,
    house: &[i64],
    festival: &[i64],
    out: &mut [i64],
) -> HostWritten
    ensures { HostMergeContract h house.now festival.now out.old result out.new }
{
    merge_host(h, house, festival, out)
}

// Says of each row of a sorted book: 1 if it stands, else 0, and the row that it names; the carried column of that place tells which notices withdraw. No join has a part in it.
pub fn rowkeeper_standing(
    h: HostOptions,
    book: &[i64],
    place: usize,
    out: &mut [i64],
) -> HostWritten
    ensures { HostStandContract h place book.now out.old result out.new }
{
    standing_host(h, book, place, out)
}

// The plain reader's view of an answer frame, given the p of the join that wrote it: its rows and columns. No join has a part in it.
pub fn rowkeeper_view_plain(p: usize, frame: &[i64]) -> HostViewed
    ensures { result ≡ viewed_host (view_plain p frame.now) }
{
    view_plain_host(p, frame)
}

// The distance reader's view. No join has a part in it.
pub fn rowkeeper_view_distance(p: usize, frame: &[i64]) -> HostViewed
    ensures { result ≡ viewed_host (view_distance p frame.now) }
{
    view_distance_host(p, frame)
}

// The two words of a place, by the rows and columns that a view told. No join has a part in it.
pub fn rowkeeper_view_cell(
    rows: usize,
    columns: usize,
    frame: &[i64],
    row: usize,
    column: usize,
) -> HostCell
    ensures { result ≡ cell_host (shown_at rows columns frame.now row column) }
{
    view_cell_host(rows, columns, frame, row, column)
}

// What the plain reader shows of one place. No join has a part in it.
pub fn rowkeeper_read_plain(p: usize, frame: &[i64], row: usize, column: usize) -> HostShown
    ensures { result ≡ shown_host (read_plain p frame.now row column) }
{
    read_plain_host(p, frame, row, column)
}

// What the distance reader shows of one place. No join has a part in it.
pub fn rowkeeper_read_distance(p: usize, frame: &[i64], row: usize, column: usize) -> HostShown
    ensures { result ≡ shown_host (read_distance p frame.now row column) }
{
    read_distance_host(p, frame, row, column)
}

// Works out how large a right area two sorted tables want, cut in frames of these heights: the most right rows held at once, the turn calls, the right frames taken. Nothing is written. No join has a part in it.
pub fn rowkeeper_plan(
    h: HostOptions,
    left: &[i64],
    right: &[i64],
    hl: &[i64],
    hr: &[i64],
) -> HostPlanned
    ensures { result ≡ planned_host (plan_host h left.now right.now hl.now hr.now) }
{
    plan_host(h, left, right, hl, hr)
}

// Tells where a sorted table, of left rows (right 0) or of right ones (right 1), is cut for each boundary: before the first row whose group is not less. No join has a part in it.
pub fn rowkeeper_cut(
    h: HostOptions,
    right: u64,
    table: &[i64],
    boundaries: &[i64],
    out: &mut [i64],
) -> HostWritten
    ensures { HostCutContract h right table.now boundaries.now out.old result out.new }
{
    cut_host(h, right, table, boundaries, out)
}

// Joins two sorted tables, cut at boundaries: the answer of the pairs, appended as one table. The areas are only measured. No join has a part in it.
pub fn rowkeeper_join_cut(
    h: HostOptions,
    left: &[i64],
    right: &[i64],
    boundaries: &[i64],
    left_area: &[i64],
    right_area: &[i64],
    out: &mut [i64],
) -> HostWritten
    ensures { HostPairsContract h left.now right.now boundaries.now (length left_area.now) (length right_area.now) out.old result out.new }
{
    join_cut_host(h, left, right, boundaries, left_area, right_area, out)
}

// Adds a frame's matched sales to a table of takings by group: the first carried column, summed and counted. No join has a part in it.
pub fn rowkeeper_takings_add(
    h: HostOptions,
    table: &[i64],
    number: i64,
    left: &[i64],
    answers: &[i64],
    out: &mut [i64],
) -> HostTaken
    ensures { HostAddContract h table.now number left.now answers.now out.old result out.new }
{
    add_host(h, table, number, left, answers, out)
}

// Joins two tables of takings by group. No join has a part in it.
pub fn rowkeeper_takings_join(
    h: HostOptions,
    table: &[i64],
    number: i64,
    other: &[i64],
    other_number: i64,
    out: &mut [i64],
) -> HostTaken
    ensures { HostJoinContract h table.now number other.now other_number out.old result out.new }
{
    join_host(h, table, number, other, other_number, out)
}
