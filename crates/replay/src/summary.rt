// What was replayed of a part of the input, and the line that tells it.

// Openings, calls, answers that differ, and the call of the first one.
#[derive(Clone, Copy)]
pub(crate) struct Tally {
    scripts: u64,
    calls: u64,
    differ: u64,
    first: u64,
}

// Nothing replayed yet.
pub(crate) fn nothing() -> Tally {
    Tally {
        scripts: 0,
        calls: 0,
        differ: 0,
        first: 0,
    }
}

// One more than a count.
fn more(n: u64) -> u64 {
    std::num::wrapping_add_u64(n, 1)
}

// A call counts, and an opening begins a script.
fn with_call(mut t: Tally, kind: u64) -> Tally {
    t.calls = more(t.calls);
    if kind == 1 {
        t.scripts = more(t.scripts);
    }
    t
}

// An answer that differs counts, and the call of the first one is kept.
fn with_difference(mut t: Tally) -> Tally {
    if t.differ == 0 {
        t.first = t.calls;
    }
    t.differ = more(t.differ);
    t
}

// A call of this kind counts, and whether its answer is the recorded one.
pub(crate) fn tallied(t: Tally, kind: u64, same: bool) -> Tally {
    let counted = with_call(t, kind);
    if same {
        return counted;
    }
    with_difference(counted)
}

// Writes a count and what it counts.
fn tell(n: u64, what: &[u8]) {
    io::print_decimal(1, n);
    io::write_all(1, what);
}

// Writes the line of a part.
pub(crate) fn tell_part(t: Tally, part: u64) {
    tell(part, b": ");
    tell(t.scripts, b" scripts, ");
    tell(t.calls, b" calls, ");
    tell(t.differ, b" answers differ, the first at call ");
    tell(t.first, b"\n");
}
