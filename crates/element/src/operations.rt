// Operations, and the initial states of an asset.
ghost use Rattle.std.specs.Prelude.{◌≡◌};
ghost use Rattle.wire.specs.Series.{increasing, series, unordered};
ghost use Rattle.wire.specs.code.Answer.{ended};
ghost use Rattle.element.specs.Inputs.{key};
ghost use Rattle.element.specs.Operations.{terms, action, operation, operation_owners, operation_type, fx_of, state_outputs, initial_state};

use crate::{MINT_OPERATION, TRANSFER_OPERATION, inputs, outputs};
use wire::{Refusal, Rule};

// `count` (id, index) pairs from `start` on, each strictly above the one before. One function for this and `inputs::indices_from`, by two closures for
// the reader and the order, with a definition for its contract, would be longer than both.
fn pairs_from(s: &[u8], start: usize, count: u64) -> Result<usize, Refusal>
    ensures { result ≡ ended (increasing key count) s.now start }
{
    let mut prev = None;
    let mut at = start;
    for _ in 0..count {
        let (index, next) = inputs::key_at(s, at)?;
        let key = inputs::key_of(s, at, index);
        if !inputs::key_follows(prev, key) {
            return Err(wire::refuse(Rule::OutOfOrder, at));
        }
        prev = Some(key);
        at = next;
    }
    Ok(at)
}

// Address indices, group, payload.
fn terms_at(s: &[u8], at: usize) -> Result<usize, Refusal>
    ensures { result ≡ ended terms s.now at }
{
    let (count, first) = wire::u32_at(s, at)?;
    let group_at = inputs::indices_from(s, first, count)?;
    let (_, payload_at) = wire::u32_at(s, group_at)?;
    string::string_at(s, payload_at, string::PAYLOAD_MOST)
}

// What follows the terms, by the operation's type: a list of owners for a mint, owners for a transfer.
fn recipients_at(s: &[u8], at: usize, type_id: u64) -> Result<usize, Refusal>
    ensures { result ≡ ended (operation_owners (operation_type type_id)) s.now at }
{
    if type_id == MINT_OPERATION {
        let (count, first) = wire::u32_at(s, at)?;
        owners::owners_list_at(s, first, count)
    } else {
        owners::owners_at(s, at)
    }
}

// What follows an operation's pairs: type, terms, recipients.
fn action_at(s: &[u8], at: usize) -> Result<usize, Refusal>
    ensures { result ≡ ended action s.now at }
{
    let (type_id, after_type) = wire::u32_at(s, at)?;
    if type_id != MINT_OPERATION && type_id != TRANSFER_OPERATION {
        return Err(wire::refuse(Rule::UnknownType, at));
    }
    let after_terms = terms_at(s, after_type)?;
    recipients_at(s, after_terms, type_id)
}

// An operation: asset id, (id, index) pairs, action.
pub fn operation_at(s: &[u8], at: usize) -> Result<usize, Refusal>
    ensures { result ≡ ended operation s.now at }
{
    let count_at = wire::field_at(s, at, 32)?;
    let (count, first) = wire::u32_at(s, count_at)?;
    let after_pairs = pairs_from(s, first, count)?;
    action_at(s, after_pairs)
}

// `count` operations from `start` on, in any order. As `owners::owners_list_at`: a public function for both, by the reader, would need a `requires`.
pub fn operations_from(s: &[u8], start: usize, count: u64) -> Result<usize, Refusal>
    ensures { result ≡ ended (unordered operation count) s.now start }
{
    let mut at = start;
    for _ in 0..count {
        at = operation_at(s, at)?;
    }
    Ok(at)
}

// The outputs of an initial state: their count, then that many outputs of the types that its FxID allows. `fx` stays a number, not
// an enum: a public function takes no less than before.
pub fn state_outputs_at(s: &[u8], at: usize, fx: u64) -> Result<usize, Refusal>
    ensures { result ≡ ended (state_outputs (fx_of fx)) s.now at }
{
    let (count, first) = wire::u32_at(s, at)?;
    outputs::outputs_under(s, first, count, fx)
}

// `count` initial states from `start` on, with strictly increasing FxIDs.
pub fn states_from(s: &[u8], start: usize, count: u64) -> Result<usize, Refusal>
    ensures { result ≡ ended (series initial_state count) s.now start }
{
    let mut prev = None;
    let mut at = start;
    for _ in 0..count {
        let (fx, after_fx) = wire::u32_at(s, at)?;
        if 1 < fx {
            return Err(wire::refuse(Rule::UnknownType, at));
        }
        if !inputs::integer_follows(prev, fx) {
            return Err(wire::refuse(Rule::OutOfOrder, at));
        }
        at = state_outputs_at(s, after_fx, fx)?;
        prev = Some(fx);
    }
    Ok(at)
}
