// A list of codes for one by-column, which then compares by place in the list: its definitions and laws. The code is in rows::ranking.

// `given` is a flag and `codes` an array of fixed length, as in C: a host gets back every number of a list that it hands in. The first `count` of `codes` are the list. `rising` has their places in the order of the codes as numbers, so that a code is found by halving.
#[derive(Clone, Copy)]
pub struct Ranks {
    pub given: bool,
    pub column: usize,
    pub count: usize,
    pub codes: [i64; 64],
    pub rising: [u8; 64],
}
