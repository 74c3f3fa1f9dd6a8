// The options of a join in numbers, and back.
ghost use Rattle.std.specs.Prelude.{◌≡◌, true, List, ℕ};
ghost use Rattle.order.specs.options.Options.{terms_of};
ghost use Rattle.ffi.specs.hostoptions.HostOptions.{is_options, kept_ranks, encode_ranks, options_with, options_of, encode_options};

use crate::codes::{
    are_flags, check_of, flag_code, flag_codes, flag_of, flags_of, is_code, is_flag,
};
use order::options::{Options, Terms};
use order::ranks::Ranks;
use rows::ranking::ranks_of;

// A list of codes for one by-column, where given is 1: the first count words of codes.
#[repr(C)]
#[derive(Clone, Copy)]
pub struct HostRanks {
    pub given: u64,
    pub column: usize,
    pub count: usize,
    pub codes: [i64; 64],
}

// The options in numbers. A flag is 0 or 1; check is 0 off, 1 on, 2 strict.
#[repr(C)]
#[derive(Clone, Copy)]
pub struct HostOptions {
    pub by: usize,
    pub strategy: u64,
    pub allow_eq: u64,
    pub tolerance: i64,
    pub check: u64,
    pub descending: [u64; 4],
    pub nulls_last: [u64; 4],
    pub carried: usize,
    pub ranks: HostRanks,
    pub with_distance: u64,
}

// Whether the numbers tell options.
#[tactic(auto, unfolding(crate::specs::hostoptions::HostOptions::is_options))]
pub fn is_options(h: HostOptions) -> bool
    ensures { result ≡ is_options h }
{
    let d = h.descending;
    let n = h.nulls_last;
    (h.strategy < 256 && (is_flag(h.allow_eq) && is_code(h.check)))
        && ((are_flags(d) && are_flags(n)) && (is_flag(h.ranks.given) && is_flag(h.with_distance)))
}

// The list of ranks that the numbers tell, with these places in rising order.
pub fn kept_ranks(h: HostRanks, rising: [u8; 64]) -> Ranks
    ensures { result ≡ kept_ranks h rising }
{
    let codes = h.codes;
    Ranks {
        given: flag_of(h.given),
        column: h.column,
        count: h.count,
        codes,
        rising,
    }
}

// What the options that the numbers tell have beside the codes of their list, whatever these codes' places are.
pub fn terms_from(h: HostOptions) -> Terms
    requires { is_options h ≡ true }
    ensures { (rising : List ℕ) → result ≡ terms_of (options_with h (kept_ranks h.ranks rising)) }
{
    let d = h.descending;
    let n = h.nulls_last;
    let descending = flags_of(d);
    let nulls_last = flags_of(n);
    Terms {
        by: h.by,
        strategy: h.strategy as u8,
        allow_eq: flag_of(h.allow_eq),
        tolerance: h.tolerance,
        check: check_of(h.check),
        descending,
        nulls_last,
        carried: h.carried,
        given: flag_of(h.ranks.given),
        column: h.ranks.column,
        count: h.ranks.count,
        with_distance: flag_of(h.with_distance),
    }
}

// The options that the numbers tell, with this list of ranks.
pub fn options_with(h: HostOptions, k: Ranks) -> Options
    requires { is_options h ≡ true }
    ensures { result ≡ options_with h k }
{
    let t = terms_from(h);
    let descending = t.descending;
    let nulls_last = t.nulls_last;
    Options {
        by: t.by,
        strategy: t.strategy,
        allow_eq: t.allow_eq,
        tolerance: t.tolerance,
        check: t.check,
        descending,
        nulls_last,
        carried: t.carried,
        ranks: k,
        with_distance: t.with_distance,
    }
}

// The options that a host gives: the places of its list in rising order are found.
pub fn options_of(h: HostOptions) -> Options
    requires { is_options h ≡ true }
    ensures { result ≡ options_of h }
{
    let codes = h.ranks.codes;
    let k = ranks_of(flag_of(h.ranks.given), h.ranks.column, h.ranks.count, codes);
    options_with(h, k)
}

// The numbers of a list of ranks.
impl From<Ranks> for HostRanks {
    ghost from_gives = { λ k numbers. numbers ≡ encode_ranks k };

    fn from(k: Ranks) -> HostRanks {
        let codes = k.codes;
        HostRanks {
            given: flag_code(k.given),
            column: k.column,
            count: k.count,
            codes,
        }
    }
}

// The numbers of options.
impl From<Options> for HostOptions {
    ghost from_gives = { λ o numbers. numbers ≡ encode_options o };

    fn from(o: Options) -> HostOptions {
        let d = o.descending;
        let n = o.nulls_last;
        HostOptions {
            by: o.by,
            strategy: o.strategy as u64,
            allow_eq: flag_code(o.allow_eq),
            tolerance: o.tolerance,
            check: o.check.into(),
            descending: flag_codes(d),
            nulls_last: flag_codes(n),
            carried: o.carried,
            ranks: o.ranks.into(),
            with_distance: flag_code(o.with_distance),
        }
    }
}
