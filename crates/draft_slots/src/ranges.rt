// The slots of a draft, found credential by credential by the counts stored there.
ghost use Rattle.std.specs.Prelude.{◌≡◌, ◌+◌, ◌*◌, ◌≤◌, length};
ghost use Rattle.draft_slots.specs.Joining.{first_clash};
ghost use Rattle.draft_slots.specs.code.Scan.{range_at, slot_range, scan_from, placed};

use crate::{SlotRange, compare};

// The slots of the credential that starts at `at`. Each loop over credentials calls it: an iterator over ranges would be longer than the two lines it saves.
pub fn range_at(s: &[u8], at: usize) -> Option<SlotRange>
    ensures { result ≡ range_at s.now at }
{
    let count_at = wire::field_at(s, at, 4).ok()?;
    let (count, first) = wire::u32_at(s, count_at).ok()?;
    let next = wire::field_at(s, first, transaction::SIGNATURE_WIDTH * count as usize).ok()?;
    Some(SlotRange { first, count, next })
}

// The first of a credential's slots in which two drafts hold different signatures. There are `slots_before` slots before these.
fn clash_in(first: &[u8], second: &[u8], range: SlotRange, slots_before: usize) -> Option<usize>
    requires range_in_bounds { range.first + 65 * range.count ≤ length first.now }
    requires slots_before_le_first { slots_before ≤ range.first }
    ensures { result ≡ first_clash slots_before (slot_range range.count range.first) first.now second.now }
{
    for i in 0..range.count as usize {
        let at = range.first + transaction::SIGNATURE_WIDTH * i;
        if compare::clash(compare::slot_of(first, at), compare::slot_of(second, at)) {
            return Some(slots_before + i);
        }
    }
    None
}

// The number of the first slot in which two drafts, whose first credential starts at `at`, hold different signatures.
pub fn first_clash(first: &[u8], second: &[u8], at: usize, credentials: u64) -> Option<usize>
    ensures { result ≡ first_clash 0 (scan_from credentials first.now at) first.now second.now }
{
    let mut credential_at = at;
    let mut slots_before = 0;
    for _ in 0..credentials {
        let range = range_at(first, credential_at)?;
        if let Some(conflict) = clash_in(first, second, range, slots_before) {
            return Some(conflict);
        }
        credential_at = range.next;
        slots_before += range.count as usize;
    }
    None
}

// The offset of slot number `slot` in a draft whose first credential starts at `at`.
pub fn place_of(s: &[u8], at: usize, credentials: u64, slot: usize) -> Option<usize>
    ensures { result ≡ placed (scan_from credentials s.now at) slot }
{
    let mut credential_at = at;
    let mut index = slot;
    for _ in 0..credentials {
        let range = range_at(s, credential_at)?;
        let count = range.count as usize;
        if index < count {
            return Some(range.first + transaction::SIGNATURE_WIDTH * index);
        }
        index -= count;
        credential_at = range.next;
    }
    None
}
