// The two calls of crates/scanwalk as a host in C or Rust calls them, for the benchmark.
#![tactic(auto)]

ghost use Rattle.std.specs.Prelude.{true, false, length};
ghost use Rattle.frames.specs.Frame.{frame_rows};
ghost use Rattle.scanwalk.specs.Drive.{refusal_of, Drives};

use scanwalk::Driven;

// Scans the right frame for each left row.
#[unsafe(no_mangle)]
pub extern "C" fn scanwalk_scan(
    strategy: u8,
    left: &[i64],
    right: &[i64],
    out: &mut [i64],
) -> Driven
    ensures { let ls = left.now in
        let rs = right.now in
        let refusal = refusal_of false strategy ls rs (length out.old) in
        let answers = Drives false strategy (frame_rows 1 ls) (frame_rows 1 rs) refusal in
        answers out.old result out.new }
{
    scanwalk::scanwalk_scan(strategy, left, right, out)
}

// Walks both frames, one cursor each.
#[unsafe(no_mangle)]
pub extern "C" fn scanwalk_walk(
    strategy: u8,
    left: &[i64],
    right: &[i64],
    out: &mut [i64],
) -> Driven
    ensures { let ls = left.now in
        let rs = right.now in
        let refusal = refusal_of true strategy ls rs (length out.old) in
        let answers = Drives true strategy (frame_rows 1 ls) (frame_rows 1 rs) refusal in
        answers out.old result out.new }
{
    scanwalk::scanwalk_walk(strategy, left, right, out)
}
