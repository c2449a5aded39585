// Inputs, which strictly increase by transaction id and output index.
ghost use Rattle.std.specs.Prelude.{◌≡◌};
ghost use Rattle.wire.specs.Fields.{integer};
ghost use Rattle.wire.specs.Series.{increasing, series};
ghost use Rattle.wire.specs.code.Answer.{ended};
ghost use Rattle.element.specs.Inputs.{input, spend};
ghost use Rattle.element.specs.code.Answer.{integer_follows, key_follows, keyed, key_of};

use crate::{SECP_INPUT, outputs};
use wire::{Refusal, Rule};

// The key of an input or of an operation's output: a transaction id and an output index.
#[derive(Clone, Copy)]
pub(crate) struct Key {
    id: [u8; 32],
    index: u64,
}

// Whether `integer` may come after `prev`, the one before it.
pub(crate) fn integer_follows(prev: Option<u64>, integer: u64) -> bool
    ensures { result ≡ integer_follows prev integer }
{
    prev.is_none_or(|p| p < integer)
}

// Whether `key` may come after `prev`, the one before it. A match, inlined: a closure would have both keys copied to pass them.
#[inline(always)]
pub(crate) fn key_follows(prev: Option<Key>, key: Key) -> bool
    ensures { result ≡ key_follows prev key }
{
    match prev {
        None => true,
        Some(p) => wire::key_below(p.id, p.index, key.id, key.index),
    }
}

// A key's index, and the offset just past the key. Callers read the id: the compiler moves an answer that holds it byte by byte.
pub(crate) fn key_at(s: &[u8], at: usize) -> Result<(u64, usize), Refusal>
    ensures { result ≡ keyed s.now at }
{
    let index_at = wire::field_at(s, at, 32)?;
    wire::u32_at(s, index_at)
}

// The key at `at` with this index.
pub(crate) fn key_of(s: &[u8], at: usize, index: u64) -> Key
    ensures { result ≡ key_of s.now at index }
{
    Key {
        id: wire::array_at::<32>(s, at),
        index,
    }
}

// `count` address indices from `start` on, each strictly above the one before.
pub(crate) fn indices_from(s: &[u8], start: usize, count: u64) -> Result<usize, Refusal>
    ensures { result ≡ ended (increasing (integer 4) count) s.now start }
{
    let mut prev = None;
    let mut at = start;
    for _ in 0..count {
        let (index, next) = wire::u32_at(s, at)?;
        if !integer_follows(prev, index) {
            return Err(wire::refuse(Rule::OutOfOrder, at));
        }
        prev = Some(index);
        at = next;
    }
    Ok(at)
}

// What follows an input's key: asset id, type 5, amount, address indices.
fn spend_at(s: &[u8], at: usize) -> Result<usize, Refusal>
    ensures { result ≡ ended spend s.now at }
{
    let type_at = wire::field_at(s, at, 32)?;
    let (type_id, after_type) = wire::u32_at(s, type_at)?;
    if type_id != SECP_INPUT {
        return Err(wire::refuse(Rule::UnknownType, type_at));
    }
    let count_at = outputs::amount_at(s, after_type)?;
    let (count, first) = wire::u32_at(s, count_at)?;
    indices_from(s, first, count)
}

// `count` inputs from `start` on.
pub fn inputs_from(s: &[u8], start: usize, count: u64) -> Result<usize, Refusal>
    ensures { result ≡ ended (series input count) s.now start }
{
    let mut prev = None;
    let mut at = start;
    for _ in 0..count {
        let (index, after_key) = key_at(s, at)?;
        let key = key_of(s, at, index);
        if !key_follows(prev, key) {
            return Err(wire::refuse(Rule::OutOfOrder, at));
        }
        at = spend_at(s, after_key)?;
        prev = Some(key);
    }
    Ok(at)
}
