// The slots of a draft: where they are, whether one is empty, and how two are compared and joined.
#![tactic(auto)]

pub mod compare;
pub mod join;
pub mod ranges;

// The slots of one credential: the offset of the first, how many there are, and the offset just past them.
#[derive(Clone, Copy)]
pub struct SlotRange {
    pub first: usize,
    pub count: u64,
    pub next: usize,
}
