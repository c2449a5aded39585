// Drafts: filling one slot, and merging two drafts of the same unsigned transaction.
#![tactic(auto)]

ghost use Rattle.std.specs.Prelude.{◌≡◌, true, length, leb};
ghost use Rattle.draft_slots.specs.Joining.{clashes, first_clash};
ghost use Rattle.draft_slots.specs.code.Scan.{scan_from, joined_at, joined_with};
ghost use Rattle.transaction.specs.Slots.{slot_at};
ghost use Rattle.transaction.specs.Avm.{avm};
ghost use Rattle.transaction.specs.Answer.{memo_most};
ghost use Rattle.draft.specs.Reader.{reader};
ghost use Rattle.draft.specs.Calls.{decide_merge, merge_call, decide_fill, fill_call};

use wire::{Refusal, Rule};

// Puts a signature of 65 bytes into slot number `slot`, which starts at `at`, if the slot holds no other.
fn fill_at(draft: &mut [u8], at: usize, slot: usize, signature: &[u8]) -> Result<usize, Refusal>
    ensures { (result, draft.new) ≡ decide_fill true true true (clashes (slot_at draft.old at) signature.now) slot
        (joined_at at signature.now draft.old) draft.old }
{
    if draft_slots::compare::clash(draft_slots::compare::slot_of(draft, at), signature) {
        return Err(wire::refuse(Rule::Conflict, slot));
    }
    draft_slots::join::join_at(draft, at, signature);
    Ok(draft.len())
}

// Puts a signature into slot number `slot`, if the slot holds no other. A memo may have at most `most` bytes.
fn fill_within(draft: &mut [u8], slot: usize, signature: &[u8], most: u64) -> Result<usize, Refusal>
    ensures { (result, draft.new) ≡ fill_call (reader (avm most)) draft.old slot signature.now }
{
    // let-else, here and in `merge_within`: with `map_err(|_| ..)?` the proof did not close, as it needs the closure's promise at every step.
    let Ok((layout, _)) = checker::check::check_within(draft, most) else {
        return Err(wire::refuse(Rule::FirstNotAccepted, 0));
    };
    let first = layout.credentials_at + 4;
    let Some(at) = draft_slots::ranges::place_of(draft, first, layout.credentials_count, slot)
    else {
        return Err(wire::refuse(Rule::NoEntry, 0));
    };
    if signature.len() != transaction::SIGNATURE_WIDTH {
        return Err(wire::refuse(Rule::NotASignature, 0));
    }
    fill_at(draft, at, slot, signature)
}

// Puts a signature into slot number `slot`, counted from 0 across credentials. Returns the draft's length.
//
// A refusal leaves the draft as it was, and so do 65 zero bytes and the signature that the slot already holds.
pub fn fill(draft: &mut [u8], slot: usize, signature: &[u8]) -> Result<usize, Refusal>
    ensures { (result, draft.new) ≡ fill_call (reader (avm memo_most)) draft.old slot signature.now }
{
    fill_within(draft, slot, signature, transaction::MEMO_MOST)
}

// Writes the merge of two drafts of the same unsigned transaction, unless a slot holds two signatures. The first credential starts at `at`.
fn merge_alike(
    first: &[u8],
    second: &[u8],
    out: &mut [u8],
    at: usize,
    credentials: u64,
) -> Result<usize, Refusal>
    ensures { (result, out.new) ≡ decide_merge true true true
        (first_clash 0 (scan_from credentials first.now at) first.now second.now)
        (leb (length first.now) (length out.old)) (joined_with second.now credentials at first.now)
        out.old }
{
    if let Some(slot) = draft_slots::ranges::first_clash(first, second, at, credentials) {
        return Err(wire::refuse(Rule::Conflict, slot));
    }
    if out.len() < first.len() {
        return Err(wire::refuse(Rule::NoRoom, 0));
    }
    let room = &mut out[..first.len()];
    room.copy_from_slice(first);
    draft_slots::join::join_slots(room, second, at, credentials);
    Ok(first.len())
}

// Writes the merge of two drafts to the front of `out`. A memo may have at most `most` bytes.
fn merge_within(first: &[u8], second: &[u8], out: &mut [u8], most: u64) -> Result<usize, Refusal>
    ensures { (result, out.new) ≡ merge_call (reader (avm most)) first.now second.now out.old }
{
    let Ok((layout, _)) = checker::check::check_within(first, most) else {
        return Err(wire::refuse(Rule::FirstNotAccepted, 0));
    };
    let Ok((other, _)) = checker::check::check_within(second, most) else {
        return Err(wire::refuse(Rule::SecondNotAccepted, 0));
    };
    let at = layout.credentials_at;
    if !draft_slots::compare::same_bytes(
        wire::between(first, 0, at),
        wire::between(second, 0, other.credentials_at),
    ) {
        return Err(wire::refuse(Rule::DraftsDiffer, 0));
    }
    merge_alike(first, second, out, at + 4, layout.credentials_count)
}

// Writes the merge of two drafts of the same unsigned transaction to the front of `out`. Returns its length.
//
// A refusal leaves `out` as it was.
pub fn merge(first: &[u8], second: &[u8], out: &mut [u8]) -> Result<usize, Refusal>
    ensures { (result, out.new) ≡ merge_call (reader (avm memo_most)) first.now second.now out.old }
{
    merge_within(first, second, out, transaction::MEMO_MOST)
}
