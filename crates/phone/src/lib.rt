// The functions that a C program calls, by the exports of `phone_c`. Each returns number × 2^32 + place.
#![tactic(auto)]

ghost use Rattle.std.specs.Prelude.{◌≡◌, ◌≤◌};
ghost use Rattle.wire.specs.Numbers.{number_of};
ghost use Rattle.wire.specs.Format.{verdict};
ghost use Rattle.transaction.specs.Family.{check};
ghost use Rattle.transaction.specs.Avm.{avm};
ghost use Rattle.transaction.specs.Answer.{memo_most};
ghost use Rattle.draft.specs.Reader.{reader};
ghost use Rattle.draft.specs.Calls.{merge_call};
ghost use Rattle.phone.specs.Packed.{packed, packed_call};

use wire::Refusal;

// A refusal as number × 2^32 + place. Not `refusal_word` of `operator`, which cuts the place: `packed` has it whole, and a call asks that it is small.
fn word(refusal: Refusal) -> u64
    requires { refusal.place ≤ 65536 }
    ensures { result ≡ packed (number_of refusal, refusal.place) }
{
    u32::from(refusal.rule) as u64 * 4294967296 + refusal.place as u64
}

// Checks a transaction. Returns 0 and its length if it is accepted, else the number and place of the first broken rule.
pub fn cellfacet_check(bytes: &[u8]) -> u64
    ensures { result ≡ packed (verdict (check (avm memo_most) bytes.now)) }
{
    match checker::check::check(bytes) {
        Ok((_, end)) => end as u64,
        Err(refusal) => word(refusal),
    }
}

// Merges two drafts into the front of `out`. Returns 0 and the length of the merge; a refusal leaves `out` as it was.
pub fn cellfacet_merge(first: &[u8], second: &[u8], out: &mut [u8]) -> u64
    ensures { (result, out.new) ≡ packed_call (merge_call (reader (avm memo_most)) first.now second.now out.old) }
{
    match draft::merge(first, second, out) {
        Ok(end) => end as u64,
        Err(refusal) => word(refusal),
    }
}
