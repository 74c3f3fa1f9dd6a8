// How the right cursor moves on over keys that do not fall: past those below a left key, four rows at a time.
ghost use Rattle.std.specs.Prelude.{◌≡◌, cond, ◌+◌, ◌-◌, ◌*◌, ◌^◌, ◌≤◌, ◌<◌, ℤ, pos, length, get_or};
ghost use Rattle.std.specs.Int.Signed.{lt_z};
ghost use Rattle.matching.specs.Moves.{Rising};
ghost use Rattle.matchrun.specs.advance.Below.{keyed, below, last_true, HasNext, AtPlace, Skipped};

// A row of a run, the place of its key, and how many moves the cursors have made when the right one
// is there: each takes a cursor one row forward, and a step over several rows is as many moves.
#[derive(Clone, Copy)]
pub struct Position {
    pub row: usize,
    pub place: usize,
    pub moves: usize,
}

// `yes` where a test holds, else `no`: a choice between two numbers, not a jump.
pub fn choose(test: bool, yes: usize, no: usize) -> usize
    ensures { result ≡ cond test yes no }
{
    if test { yes } else { no }
}

// `start` and one step more for each of three rows, up to the last whose key is below u; the key of the first is at place p, and a fourth row is there too.
fn stepped(rv: &[i64], p: usize, w: usize, u: i64, start: usize, step: usize) -> usize
    requires { (p + w + w + w < length rv.now) × (start ≤ p) × (step ≤ w) }
    ensures { result ≡ start + last_true (lt_z (get_or rv.now p (pos 0)) u) (lt_z (get_or rv.now (p + w) (pos 0)) u) (lt_z (get_or rv.now (p + w + w) (pos 0)) u) * step }
{
    let q = p + w;
    let r = q + w;
    let one = start + step;
    let two = one + step;
    let first = choose(rv[p] < u, one, start);
    let second = choose(rv[q] < u, two, first);
    choose(rv[r] < u, two + step, second)
}

// Whether the key a is below v, or at it where that counts too.
// A flag: it is the option allow_eq or its opposite, known only while a join runs.
fn is_below(a: i64, v: i64, inclusive: bool) -> bool
    ensures { result ≡ below inclusive v a }
{
    if inclusive {
        return !(v < a);
    }
    a < v
}

// The first row of at..end whose key is not below v, nor at it where that counts too, looked for
// row by row; the key of row `at` is at place p. Each row that is passed is one move more than the
// `moved` moves made before.
// A flag: it is the option allow_eq or its opposite, known only while a join runs.
fn rest(
    rv: &[i64],
    at: usize,
    p: usize,
    moved: usize,
    end: usize,
    w: usize,
    v: i64,
    inclusive: bool,
) -> Position
    requires at_place { AtPlace w end rv.now at p }
    requires at_bound { moved + (end - at) < 2 ^ 64 }
    ensures { Skipped w (p - at * w) at end rv.now (below inclusive v) moved result }
{
    let mut place = p;
    let mut moves = moved;
    for row in at..end {
        if !is_below(rv[place], v, inclusive) {
            return Position { row, place, moves };
        }
        place += w;
        moves += 1;
    }
    Position {
        row: end,
        place,
        moves,
    }
}

// The key that all keys below v are below, and those at it too where that counts: v, or the next one.
// A flag: it is the option allow_eq or its opposite, known only while a join runs.
fn bound(v: i64, inclusive: bool) -> i64
    requires { HasNext v }
    ensures { (a : ℤ) → below inclusive v a ≡ lt_z a result }
{
    if inclusive {
        return v + 1;
    }
    v
}

// The first row of at..end whose key is not below v, nor at it where that counts too, four rows at a
// time up to row `stop`; the key of row `at` is at place p. The last of four rows is tested first:
// where its key is below v, all four are passed, in four moves, and else the row is chosen among
// them, with as many moves as rows are passed.
// A flag: it is the option allow_eq or its opposite, known only while a join runs.
pub fn advance(
    rv: &[i64],
    at: usize,
    p: usize,
    moved: usize,
    stop: usize,
    end: usize,
    w: usize,
    v: i64,
    inclusive: bool,
) -> Position
    requires at_place { AtPlace w end rv.now at p }
    requires stop_le_end { stop ≤ end }
    requires rising { Rising (keyed w (p - at * w) rv.now) at end }
    requires has_next { at + 3 < stop → HasNext v }
    requires at_bound { moved + (end - at) < 2 ^ 64 }
    ensures { Skipped w (p - at * w) at end rv.now (below inclusive v) moved result }
{
    let mut row = at;
    let mut place = p;
    let mut moves = moved;
    // A while: four rows a turn, and the last fewer than four begin where it stops.
    while row + 3 < stop {
        let last = place + w + w + w;
        let u = bound(v, inclusive);
        if !(rv[last] < u) {
            let passed = stepped(rv, place, w, u, 0, 1);
            row += passed;
            moves += passed;
            return Position {
                row: row,
                place: stepped(rv, place, w, u, place, w),
                moves: moves,
            };
        }
        row += 4;
        place = last + w;
        moves += 4;
    }
    rest(rv, row, place, moves, end, w, v, inclusive)
}
