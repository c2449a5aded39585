// What a transaction's plan has at each phase: for the checker the next segment, for the writer the next step.
#![tactic(auto)]

pub mod rows;

use transaction::{FieldName, ListName};

// Nothing is due in a later phase. No row comes near it, so a longer row does not change it.
pub const LAST_PHASE: u32 = 32;

// What is due: nothing, the finish, a field, or a list with the least number of its elements (its next element or its close).
#[derive(Clone, Copy)]
pub enum Due {
    Nothing,
    Finish,
    Field(FieldName),
    List(ListName, u32),
}
