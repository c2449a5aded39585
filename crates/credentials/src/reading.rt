// The credentials, each read together with the element or field that wants it.
ghost use Rattle.std.specs.Prelude.{◌≡◌, ◌<◌, ◌^◌, []};
ghost use Rattle.wire.specs.code.Answer.{ended};
ghost use Rattle.transaction.specs.Credentials.{signatures, credential_pieces, pieces};
ghost use Rattle.transaction.specs.code.Answer.{CredentialsAt};
ghost use Rattle.credentials.specs.code.Cut.{first_cut};
ghost use Rattle.credentials.specs.code.Wanted.{Beside};

use crate::{Wanting, asking};
use transaction::Layout;
use wire::{Refusal, Rule};

// The first of `count` signatures that is cut short, given that they are not all there. A separate function that returns refusals only, so that its
// loop is not nested in the loop over the credentials.
fn first_cut(s: &[u8], start: usize, count: u64) -> Refusal
    ensures { result ≡ first_cut count s.now start }
{
    let mut at = start;
    for _ in 0..count {
        let Ok(next) = wire::field_at(s, at, transaction::SIGNATURE_WIDTH) else {
            return wire::cut(s, at, transaction::SIGNATURE_WIDTH);
        };
        at = next;
    }
    wire::cut(s, at, transaction::SIGNATURE_WIDTH)
}

// `count` signatures; one test finds whether all are there. The count fits 32 bits, so the product fits a usize. (`map_err` in place of the match was
// tried: its goal stayed open.)
fn signatures_at(s: &[u8], start: usize, count: u64) -> Result<usize, Refusal>
    requires { count < 256 ^ 4 }
    ensures { result ≡ ended (pieces (signatures count [])) s.now start }
{
    match wire::field_at(s, start, transaction::SIGNATURE_WIDTH * count as usize) {
        Ok(next) => Ok(next),
        Err(_) => Err(first_cut(s, start, count)),
    }
}

// A credential of type `type_id` with `wanted` signatures.
fn credential_at(s: &[u8], at: usize, type_id: u64, wanted: u64) -> Result<usize, Refusal>
    ensures { result ≡ ended (pieces (credential_pieces type_id wanted [])) s.now at }
{
    let (found, count_at) = wire::u32_at(s, at)?;
    if found != type_id {
        return Err(wire::refuse(Rule::UnknownType, at));
    }
    let (count, first) = wire::u32_at(s, count_at)?;
    if count != wanted {
        return Err(wire::refuse(Rule::WrongCount, count_at));
    }
    signatures_at(s, first, wanted)
}

// `count` credentials from `start` on, each read together with what wants it. The cursor is kept as separate locals, which is faster.
fn beside(s: &[u8], type_id: u32, from: Wanting, count: u64, start: usize) -> Result<usize, Refusal>
    ensures { Beside type_id s.now from count start result }
{
    let mut phase = from.phase;
    let mut asks = from.asks;
    let mut asks_at = from.at;
    let mut elements = from.left;
    let mut at = start;
    for _ in 0..count {
        let cursor = Wanting {
            phase,
            asks,
            at: asks_at,
            left: elements,
        };
        let Some(wanted) = asking::next_wanted_fast(s, type_id, cursor) else {
            return Ok(at);
        };
        at = credential_at(s, at, wanted.credential, wanted.signatures)?;
        phase = wanted.next.phase;
        asks = wanted.next.asks;
        asks_at = wanted.next.at;
        elements = wanted.next.left;
    }
    Ok(at)
}

// The whole list of credentials: its count, then each credential read together with what wants it.
pub fn credentials_at(s: &[u8], layout: Layout) -> Result<usize, Refusal>
    ensures { CredentialsAt layout s.now result }
{
    let at = layout.credentials_at;
    let (count, first) = wire::u32_at(s, at)?;
    if count != layout.credentials_count {
        return Err(wire::refuse(Rule::WrongCount, at));
    }
    beside(
        s,
        layout.type_id,
        asking::first_wanting(layout),
        count,
        first,
    )
}
