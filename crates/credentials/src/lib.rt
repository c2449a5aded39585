// The credentials of a transaction: what asks for them, one after another, and their reading.
#![tactic(auto)]

pub mod asking;
pub mod reading;

// The cursor to the next credential wanted: the phase of the next segment, the offset, and for the current list the number of elements left and the
// type of the credential that each asks for.
#[derive(Clone, Copy)]
pub struct Wanting {
    pub phase: u32,
    pub asks: u64,
    pub at: usize,
    pub left: u64,
}

// The next segment. `Into`: a list, the type of the credential that each element asks for, and where they start; 0 elements if the segment asks for
// none. `Asks`: a field that asks for a credential; `next` is the offset just past it.
#[derive(Clone, Copy)]
pub(crate) enum Begun {
    Into {
        asks: u64,
        count: u64,
        start: usize,
    },
    Asks {
        credential: u64,
        signatures: u64,
        next: usize,
    },
}

// The credential wanted next: its type, its number of signatures, and the cursor just past what asks for it.
#[derive(Clone, Copy)]
pub struct Wanted {
    pub credential: u64,
    pub signatures: u64,
    pub next: Wanting,
}
