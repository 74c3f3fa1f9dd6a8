// Options, the list of ranked codes, and the order of cells, groups and rows: types, definitions and laws. The code is in rows.
#![tactic(auto)]

pub mod options;
pub mod ranks;

// A row that a side remembers, or none. A flag and no Option: a host hands in a join in numbers, and those beside a 0 go back as they came.
#[derive(Clone, Copy)]
pub struct Row {
    pub some: bool,
    pub values: [i64; 5],
    pub marks: [i64; 5],
}
