// Owners: locktime, threshold, addresses. Outputs and operations have them.
#![tactic(auto)]

ghost use Rattle.std.specs.Prelude.{◌≡◌};
ghost use Rattle.wire.specs.Fields.{blob};
ghost use Rattle.wire.specs.Series.{increasing, unordered};
ghost use Rattle.wire.specs.code.Answer.{ended};
ghost use Rattle.owners.specs.Owners.{owners, threshold_fits};

use wire::{Refusal, Rule};

// The fields of owners. The addresses are `addresses_count` times 20 bytes from `addresses_at` on.
#[derive(Clone, Copy)]
pub struct OwnersFields {
    pub locktime: u64,
    pub threshold: u64,
    pub addresses_at: usize,
    pub addresses_count: u64,
}

// `count` addresses from `start` on, each strictly above the one before. Each turn tests again that the address before is there, for speed: the
// compiler then knows it of both addresses, and passes them without another test.
pub fn addresses_from(s: &[u8], start: usize, count: u64) -> Result<usize, Refusal>
    ensures { result ≡ ended (increasing (blob 20) count) s.now start }
{
    if count == 0 {
        return Ok(start);
    }
    let mut prev = start;
    for _ in 1..count {
        let at = wire::field_at(s, prev, 20)?;
        wire::field_at(s, at, 20)?;
        if !wire::address_below(wire::array_at::<20>(s, prev), wire::array_at::<20>(s, at)) {
            return Err(wire::refuse(Rule::OutOfOrder, at));
        }
        prev = at;
    }
    wire::field_at(s, prev, 20)
}

// Whether a threshold is allowed for this many addresses: at most their number, and 0 only if there are none. The reader and the writer both use this
// test. Its steps each end it where they can, so that the compiler makes them branches; one choice between two tests was slower.
pub fn threshold_fits(threshold: u64, addresses: u64) -> bool
    ensures { result ≡ threshold_fits threshold addresses }
{
    if addresses < threshold {
        return false;
    }
    if 0 < threshold {
        return true;
    }
    addresses == 0
}

// Owners at `at`: locktime, threshold, addresses.
pub fn owners_at(s: &[u8], at: usize) -> Result<usize, Refusal>
    ensures { result ≡ ended owners s.now at }
{
    let (_, threshold_at) = wire::u64_at(s, at)?;
    let (threshold, count_at) = wire::u32_at(s, threshold_at)?;
    let (count, first) = wire::u32_at(s, count_at)?;
    if !threshold_fits(threshold, count) {
        return Err(wire::refuse(Rule::BadThreshold, threshold_at));
    }
    addresses_from(s, first, count)
}

// `count` owners from `start` on, in any order.
pub fn owners_list_at(s: &[u8], start: usize, count: u64) -> Result<usize, Refusal>
    ensures { result ≡ ended (unordered owners count) s.now start }
{
    let mut at = start;
    for _ in 0..count {
        at = owners_at(s, at)?;
    }
    Ok(at)
}
