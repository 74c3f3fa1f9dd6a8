// The options that a join is opened with: their definitions, and tests of them.
ghost use Rattle.std.specs.Prelude.{◌≡◌, ◌≤◌, length};
ghost use Rattle.order.specs.options.Options.{terms_of, options_of, without_list, has_list, bad_options, many_carried, strategy_of, check_code, is_on, is_strict, columns, right_columns, shared_columns, answer_columns};

use crate::ranks::Ranks;

// The strategies of a match. In the options a strategy is its number, since a host may hand in any.
#[derive(Clone, Copy, PartialEq, Eq, Debug)]
pub enum Strategy {
    Backward,
    Forward,
    Nearest,
}

// Whether the order of the rows is checked; strict compares rows without a key between left frames too.
#[derive(Clone, Copy, PartialEq, Eq, Debug)]
pub enum Check {
    Off,
    On,
    Strict,
}

impl Check {
    // Whether the order check is on.
    pub fn is_on(self) -> bool
        ensures { result ≡ is_on self }
    {
        !matches!(&self, Check::Off)
    }

    // Whether the order check is strict.
    pub fn is_strict(self) -> bool
        ensures { result ≡ is_strict self }
    {
        matches!(&self, Check::Strict)
    }
}

// The number of the order check's setting.
impl From<Check> for u64 {
    ghost from_gives = { λ check n. n ≡ check_code check };

    fn from(check: Check) -> u64 {
        match check {
            Check::Off => 0,
            Check::On => 1,
            Check::Strict => 2,
        }
    }
}

// What a join is opened with.
#[derive(Clone, Copy)]
pub struct Options {
    pub by: usize,
    pub strategy: u8,
    pub allow_eq: bool,
    pub tolerance: i64,
    pub check: Check,
    pub descending: [bool; 4],
    pub nulls_last: [bool; 4],
    pub carried: usize,
    pub ranks: Ranks,
    pub with_distance: bool,
}

// The options without the codes of the list, which stand beside them as two slices: a list is 576 bytes, and most joins have none. What is less
// than a word stands last, so that a copy has no gaps: terms are copied at every call.
#[derive(Clone, Copy)]
pub struct Terms {
    pub by: usize,
    pub tolerance: i64,
    pub carried: usize,
    pub column: usize,
    pub count: usize,
    pub strategy: u8,
    pub allow_eq: bool,
    pub check: Check,
    pub given: bool,
    pub with_distance: bool,
    pub descending: [bool; 4],
    pub nulls_last: [bool; 4],
}

// The rules by which rows are compared: the terms, the codes of the list of ranks, and their places in rising order.
#[derive(Clone, Copy)]
pub struct Rules<'a> {
    pub terms: Terms,
    pub codes: &'a [i64],
    pub rising: &'a [u8],
}

impl Options {
    // The rules that the options tell.
    pub fn rules(&self) -> Rules<'_>
        ensures told { options_of result ≡ self.now }
        ensures terms { result.terms ≡ terms_of self.now }
        ensures codes { length result.codes.now ≡ 64 }
        ensures rising { length result.rising.now ≡ 64 }
    {
        Rules {
            terms: terms_of(*self),
            codes: &self.ranks.codes,
            rising: &self.ranks.rising,
        }
    }
}

// The options without the codes of the list.
pub fn terms_of(o: Options) -> Terms
    ensures { result ≡ terms_of o }
{
    let descending = o.descending;
    let nulls_last = o.nulls_last;
    Terms {
        by: o.by,
        strategy: o.strategy,
        allow_eq: o.allow_eq,
        tolerance: o.tolerance,
        check: o.check,
        descending: descending,
        nulls_last: nulls_last,
        carried: o.carried,
        given: o.ranks.given,
        column: o.ranks.column,
        count: o.ranks.count,
        with_distance: o.with_distance,
    }
}

// Whether the options are invalid (SCOPE 3.6).
#[tactic(auto, unfolding(crate::specs::options::Options::bad_options))]
pub fn bad_options(o: Terms) -> bool
    ensures { result ≡ bad_options (without_list o) }
{
    if 4 < o.by {
        return true;
    }
    if 2 < o.strategy {
        return true;
    }
    if o.tolerance < -1 {
        return true;
    }
    if o.strategy == 2 {
        return !o.allow_eq;
    }
    false
}

// Whether more columns are carried than may be (SCOPE 3.8).
pub fn many_carried(o: Terms) -> bool
    ensures { result ≡ many_carried (without_list o) }
{
    8 < o.carried
}

// Whether by-column j has the list of ranks (SCOPE 3.10).
pub fn is_ranked(o: Terms, j: usize) -> bool
    ensures { result ≡ has_list o j }
{
    if o.given {
        return j == o.column;
    }
    false
}

// The strategy by its number: 0 Backward, 1 Forward, 2 Nearest.
pub fn strategy_of(o: Terms) -> Strategy
    ensures { result ≡ strategy_of (without_list o) }
{
    if o.strategy == 0 {
        return Strategy::Backward;
    }
    if o.strategy == 1 {
        return Strategy::Forward;
    }
    Strategy::Nearest
}

// Whether terms ask for the order of the rows to be checked.
pub fn checks(o: Terms) -> bool
    ensures { result ≡ is_on o.check }
{
    o.check.is_on()
}

// The columns of a left frame: by-columns and key.
pub fn left_columns(o: Terms) -> usize
    requires { o.by ≤ 4 }
    ensures { result ≡ columns (without_list o) }
{
    o.by + 1
}

// The columns of a right frame, and of a held row: behind the key stands what is carried.
pub fn right_columns(o: Terms) -> usize
    requires { (o.by ≤ 4) × (o.carried ≤ 8) }
    ensures { result ≡ right_columns (without_list o) }
{
    o.by + 1 + o.carried
}

// The columns of an answer without its distance: the right number, and what is carried.
pub fn shared_columns(o: Terms) -> usize
    requires { o.carried ≤ 8 }
    ensures { result ≡ shared_columns (without_list o) }
{
    o.carried + 1
}

// The columns of an answer: one more where the distance is written.
pub fn answer_columns(o: Terms) -> usize
    requires { o.carried ≤ 8 }
    ensures { result ≡ answer_columns (without_list o) }
{
    if o.with_distance {
        return o.carried + 2;
    }
    o.carried + 1
}
