// Slots joined in place: an empty slot takes what it is joined with.
ghost use Rattle.std.specs.Prelude.{◌≡◌, ◌+◌, ◌*◌, ◌≤◌, length};
ghost use Rattle.draft_slots.specs.code.Scan.{slot_range, joined_at, join_all, joined_with};

use crate::{SlotRange, compare, ranges};

// Copies `other` into the slot at `at` if the slot is empty. Nothing changes if either is not 65 bytes.
pub fn join_at(draft: &mut [u8], at: usize, other: &[u8])
    ensures { draft.new ≡ joined_at at other.now draft.old }
{
    if other.len() == transaction::SIGNATURE_WIDTH
        && compare::is_blank(compare::slot_of(draft, at))
    {
        draft[at..at + transaction::SIGNATURE_WIDTH].copy_from_slice(other);
    }
}

// Joins the slots of one credential with those of the other draft.
fn join_range(draft: &mut [u8], other: &[u8], range: SlotRange)
    requires { range.first + 65 * range.count ≤ length other.now }
    ensures { draft.new ≡ join_all (slot_range range.count range.first) other.now draft.old }
{
    for i in 0..range.count as usize {
        let at = range.first + transaction::SIGNATURE_WIDTH * i;
        join_at(draft, at, compare::slot_of(other, at));
    }
}

// Joins every slot of the other draft, whose first credential starts at `at`, into `draft`.
pub fn join_slots(draft: &mut [u8], other: &[u8], at: usize, credentials: u64)
    ensures { draft.new ≡ joined_with other.now credentials at draft.old }
{
    let mut credential_at = at;
    for _ in 0..credentials {
        let Some(range) = ranges::range_at(other, credential_at) else {
            return;
        };
        join_range(draft, other, range);
        credential_at = range.next;
    }
}
