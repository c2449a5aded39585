// Steps from one entry of an accepted transaction to the next, in byte order. The bytes have been checked, so elements are skipped by their lengths
// and no rule is checked again.
#![tactic(auto)]

pub mod steps;

// The kinds of entries that are not elements of a list: an initial state's output, and a credential.
// Kinds stay numbers: a caller's table holds each as one u32 (entry_table's `put_row`), and `located` states that number.
pub(crate) const STATE_OUTPUT: u32 = 6;

pub(crate) const CREDENTIAL: u32 = 7;

// The bytes before the first segment: codec, type, network and chain id.
pub(crate) const HEAD_WIDTH: usize = 42;

// The position of the next entry: the number of the plan's segments begun (the credentials count as the last), the offset, the number of elements
// left in the segment begun last, and `inner`, the number of outputs left in the current initial state.
#[derive(Clone, Copy)]
pub struct Cursor {
    pub phase: u32,
    pub at: usize,
    pub left: u64,
    pub inner: u64,
}

#[derive(Clone, Copy)]
pub struct Row {
    pub kind: u32,
    pub start: usize,
    pub end: usize,
}

#[derive(Clone, Copy)]
pub enum Advance {
    Found(Row, Cursor),
    Moved(Cursor),
    Done,
}
