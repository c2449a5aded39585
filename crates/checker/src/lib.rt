// The check of a transaction: the unsigned part in one loop over the plan's segments, then the credentials that they want.
#![tactic(auto)]

pub mod body;
pub mod check;
