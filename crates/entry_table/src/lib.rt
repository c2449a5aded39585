// The table of an accepted transaction's entries, in byte order: its rows are counted, written, and found by index.
#![tactic(auto)]

pub mod rows;

// The integers of a row: kind, start, length.
pub(crate) const ROW_NUMBERS: usize = 3;
