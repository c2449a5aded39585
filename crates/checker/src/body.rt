// The unsigned part: codec, type, network, chain id, and the segments of the type's plan. A memo has at most `most` bytes.
ghost use Rattle.std.specs.Prelude.{◌≡◌};
ghost use Rattle.wire.specs.code.Answer.{ended};
ghost use Rattle.transaction.specs.Plan.{plan_of};
ghost use Rattle.transaction.specs.Form.{list_of};
ghost use Rattle.transaction.specs.code.Answer.{head_at, list_at, unsigned_at};
ghost use Rattle.plan.specs.Due.{due};
ghost use Rattle.checker.specs.code.Segments.{passed_at, plan_at};

use plan::{Due, rows};
use transaction::{Layout, ListName};
use wire::{Refusal, Rule};

// Codec, type, network, chain id: the type's number, and the offset just past them.
fn head_at(s: &[u8], at: usize) -> Result<(u64, usize), Refusal>
    ensures { result ≡ head_at s.now at }
{
    let (codec, type_at) = wire::u16_at(s, at)?;
    if codec != 0 {
        return Err(wire::refuse(Rule::WrongCodec, at));
    }
    let (number, network_at) = wire::u32_at(s, type_at)?;
    if !rows::is_type(number) {
        return Err(wire::refuse(Rule::UnknownType, type_at));
    }
    let (_, chain_at) = wire::u32_at(s, network_at)?;
    let next = wire::field_at(s, chain_at, 32)?;
    Ok((number, next))
}

// A list of at least `least` elements: the number of its elements, and the offset just past them.
fn list_at(s: &[u8], at: usize, list: ListName, least: u64) -> Result<(u64, usize), Refusal>
    ensures { result ≡ list_at list least s.now at }
{
    let (count, first) = wire::u32_at(s, at)?;
    if count < least {
        return Err(wire::refuse(Rule::EmptyList, at));
    }
    if count == 0 {
        return Ok((0, first));
    }
    let next = rows::elements_from(s, first, count, list)?;
    Ok((count, next))
}

// The segment that is due: the number of credentials that it wants, and the offset just past it.
fn segment_at(
    s: &[u8],
    at: usize,
    type_id: u32,
    phase: u32,
    most: u64,
) -> Result<Option<(u64, usize)>, Refusal>
    ensures { result ≡ passed_at most (due phase (plan_of type_id)) s.now at }
{
    match rows::due_at(type_id, phase) {
        Due::Nothing | Due::Finish => Ok(None),
        Due::Field(field) => {
            let next = rows::field_end(s, at, field, most)?;
            if rows::field_credential(field) == 0 {
                return Ok(Some((0, next)));
            }
            Ok(Some((1, next)))
        }
        Due::List(list, least) => {
            let (count, next) = list_at(s, at, list, least as u64)?;
            if rows::credential_of(list) == 0 {
                return Ok(Some((0, next)));
            }
            Ok(Some((count, next)))
        }
    }
}

// The segments after the outputs, which end at `start`.
fn plan_at(s: &[u8], start: usize, type_id: u32, most: u64) -> Result<Layout, Refusal>
    ensures { result ≡ plan_at most type_id start 0 (due 2 (plan_of type_id)) s.now start }
{
    let mut phase: u32 = 2;
    let mut at = start;
    let mut wanted: u64 = 0;
    while let Some((count, next)) = segment_at(s, at, type_id, phase, most)? {
        wanted += count;
        at = next;
        phase += 1;
    }
    Ok(Layout {
        type_id,
        inputs_at: start,
        credentials_count: wanted,
        credentials_at: at,
    })
}

// The outputs, which every plan starts with. A separate function is faster here.
fn outputs_at(s: &[u8], at: usize) -> Result<usize, Refusal>
    ensures { result ≡ ended (list_of ListName.Output 0) s.now at }
{
    let (count, first) = wire::u32_at(s, at)?;
    if count == 0 {
        return Ok(first);
    }
    element::outputs::outputs_from(s, first, count)
}

pub fn unsigned_at(s: &[u8], most: u64) -> Result<Layout, Refusal>
    ensures { result ≡ unsigned_at most s.now }
{
    let (number, at) = head_at(s, 0)?;
    let inputs_at = outputs_at(s, at)?;
    plan_at(s, inputs_at, number as u32, most)
}
