// Scan and walk over the same two frames of one key column, for the benchmark that compares them. The join does not use it.
#![tactic(auto)]

ghost use Rattle.std.specs.Prelude.{◌≡◌, true, false, ◌&&◌, ◌≤◌, length};
ghost use Rattle.frames.specs.Cells.{rows_of};
ghost use Rattle.frames.specs.Frame.{frame_rows};
ghost use Rattle.order.specs.options.Options.{terms_of, without_list};
ghost use Rattle.order.specs.Requires.{RowsIn};
ghost use Rattle.matching.specs.Stretches.{between};
ghost use Rattle.matching.specs.Moves.{keys_sorted};
ghost use Rattle.scanwalk.specs.Drive.{key_options, judged, unsorted, refusal_of, Drives, PartsIn};

use frames::RowSlice;
use matchrun::cursor::keys_sorted;
use matchrun::{scan_run, walk_run};
use order::options::{Check, Terms};
use rows::framerule::{is_frame, row_count};

// What a call answers: 0 or the refusal's number, and how many moves the cursors of a walk made.
#[repr(C)]
#[derive(Clone, Copy)]
pub struct Driven {
    pub refusal: u64,
    pub moves: u64,
}

// The options of a strategy: no by-columns and no list of ranks, equal keys match, any distance will do.
fn key_options(strategy: u8) -> Terms
    ensures { result ≡ terms_of (key_options strategy) }
{
    Terms {
        by: 0,
        strategy,
        allow_eq: true,
        tolerance: -1,
        check: Check::Off,
        descending: [false; 4],
        nulls_last: [false; 4],
        carried: 0,
        given: false,
        column: 0,
        count: 0,
        with_distance: false,
    }
}

// The refusal of what is handed in: 1, 5 or 6; 0 for none.
fn judge(strategy: u8, left: &[i64], right: &[i64], room: usize) -> u64
    ensures { result ≡ judged strategy left.now right.now room }
{
    if 2 < strategy {
        return 1;
    }
    if !is_frame(left, 1) {
        return 5;
    }
    if !is_frame(right, 1) {
        return 5;
    }
    if room < 2 + 2 * row_count(left) {
        return 6;
    }
    0
}

// Whether left rows from..to and right rows at..end are both sorted by key.
fn both_sorted(
    lv: &[i64],
    lm: &[i64],
    from: usize,
    to: usize,
    wl: usize,
    rv: &[i64],
    rm: &[i64],
    at: usize,
    end: usize,
    wr: usize,
    o: Terms,
) -> bool
    requires { RowsIn (without_list o) wl to lv.now lm.now × (from ≤ to) × RowsIn (without_list o) wr end rv.now rm.now × (at ≤ end) }
    ensures { result ≡ (keys_sorted (without_list o) (between wl from to lv.now lm.now) && keys_sorted (without_list o) (between wr at end rv.now rm.now)) }
{
    keys_sorted(
        RowSlice {
            values: lv,
            marks: lm,
            count: to,
            width: wl,
        },
        from,
        to,
        o,
    ) && keys_sorted(
        RowSlice {
            values: rv,
            marks: rm,
            count: end,
            width: wr,
        },
        at,
        end,
        o,
    )
}

// n left rows over m right rows: each by a scan, or all by a walk, which wants both sorted and else refuses by 14.
fn drive(
    walked: bool,
    strategy: u8,
    lv: &[i64],
    lm: &[i64],
    n: usize,
    rv: &[i64],
    rm: &[i64],
    m: usize,
    out: &mut [i64],
) -> Driven
    requires { PartsIn n lv.now lm.now m rv.now rm.now out.old }
    ensures { let ls = rows_of 1 n lv.now lm.now in
        let rs = rows_of 1 m rv.now rm.now in
        let answers = Drives walked strategy ls rs (unsorted walked strategy ls rs) in
        answers out.old result out.new }
{
    let o = key_options(strategy);
    let left = RowSlice {
        values: lv,
        marks: lm,
        count: n,
        width: 1,
    };
    let right = RowSlice {
        values: rv,
        marks: rm,
        count: m,
        width: 1,
    };
    if !walked {
        scan_run(left, n, 0, n, right, 0, m, 0, o, out);
        return Driven {
            refusal: 0,
            moves: 0,
        };
    }
    if !both_sorted(lv, lm, 0, n, 1, rv, rm, 0, m, 1, o) {
        return Driven {
            refusal: 14,
            moves: 0,
        };
    }
    let moves = walk_run(left, n, 0, n, right, 0, m, 0, o, out);
    Driven {
        refusal: 0,
        moves: moves as u64,
    }
}

// The same of two frames, any words, into any output.
fn call(walked: bool, strategy: u8, left: &[i64], right: &[i64], out: &mut [i64]) -> Driven
    ensures { let ls = left.now in
        let rs = right.now in
        let refusal = refusal_of walked strategy ls rs (length out.old) in
        let answers = Drives walked strategy (frame_rows 1 ls) (frame_rows 1 rs) refusal in
        answers out.old result out.new }
{
    let refusal = judge(strategy, left, right, out.len());
    if refusal != 0 {
        return Driven { refusal, moves: 0 };
    }
    let n = row_count(left);
    let m = row_count(right);
    let e = 2 + n;
    let f = 2 + m;
    drive(
        walked,
        strategy,
        &left[2..e],
        &left[e..],
        n,
        &right[2..f],
        &right[f..],
        m,
        out,
    )
}

// Scans the right frame for each left row.
pub fn scanwalk_scan(strategy: u8, left: &[i64], right: &[i64], out: &mut [i64]) -> Driven
    ensures { let ls = left.now in
        let rs = right.now in
        let refusal = refusal_of false strategy ls rs (length out.old) in
        let answers = Drives false strategy (frame_rows 1 ls) (frame_rows 1 rs) refusal in
        answers out.old result out.new }
{
    call(false, strategy, left, right, out)
}

// Walks both frames, one cursor each.
pub fn scanwalk_walk(strategy: u8, left: &[i64], right: &[i64], out: &mut [i64]) -> Driven
    ensures { let ls = left.now in
        let rs = right.now in
        let refusal = refusal_of true strategy ls rs (length out.old) in
        let answers = Drives true strategy (frame_rows 1 ls) (frame_rows 1 rs) refusal in
        answers out.old result out.new }
{
    call(true, strategy, left, right, out)
}

#[cfg(test)]
mod tests {
    use matchrun::advance::choose;

    // A crate above matchrun calls its choice between two numbers; Err has one that is not the wanted one.
    #[test]
    fn choose_from_another_crate() -> Result<(), usize> {
        for (test, wanted) in [(true, 3), (false, 5)] {
            let chosen = choose(test, 3, 5);
            if chosen != wanted {
                return Err(chosen);
            }
        }
        Ok(())
    }
}
