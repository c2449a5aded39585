// The signature slots of a transaction, listed in a lent table.
#![tactic(auto)]

ghost use Rattle.std.specs.Prelude.{◌≡◌, ◌+◌, ◌*◌, ◌≤◌, length};
ghost use Rattle.transaction.specs.Answer.{memo_most};
ghost use Rattle.entry_table.specs.Table.{filled};
ghost use Rattle.draft_slot_table.specs.Slots.{slot_in, filled_at, row, rows};
ghost use Rattle.draft_slot_table.specs.Table.{tabled_slots};
ghost use Rattle.draft_slot_table.specs.code.Scan.{slots_in, scan_from, put};

use draft_slots::SlotRange;
use wire::{Refusal, Rule};

// How many numbers a row has: credential, offset, filled.
const ROW: usize = 3;

// How many slots the credentials have, the first of which starts at `at`.
fn count(s: &[u8], at: usize, credentials: u64) -> usize
    ensures { result ≡ length (scan_from 0 credentials s.now at) }
{
    let mut credential_at = at;
    let mut slots = 0;
    for _ in 0..credentials {
        let Some(range) = draft_slots::ranges::range_at(s, credential_at) else {
            return slots;
        };
        slots += range.count as usize;
        credential_at = range.next;
    }
    slots
}

// Whether the slot that starts at `at` holds a signature, 1 if it does. It is empty if it is 65 zero bytes.
fn filled_at(s: &[u8], at: usize) -> u32
    ensures { result ≡ filled_at s.now at }
{
    u32::from(!draft_slots::compare::is_blank(draft_slots::compare::slot_of(s, at)))
}

// Writes the row of the slot that starts at `at` into the three numbers of the table from index `row_at` on.
fn put_row(s: &[u8], table: &mut [u32], row_at: usize, credential: usize, at: usize)
    requires row_at_in_bounds { row_at + 3 ≤ length table.old }
    requires credential_bound { credential ≤ 65536 }
    requires at_bound { at ≤ 65536 }
    ensures { table.new ≡ put table.old row_at (row s.now (slot_in credential at)) }
{
    table[row_at] = credential as u32;
    table[row_at + 1] = at as u32;
    table[row_at + 2] = filled_at(s, at);
}

// Writes the rows of a credential's slots from index `rows_at` of the table on.
fn put_range(s: &[u8], table: &mut [u32], rows_at: usize, credential: usize, range: SlotRange)
    requires s_len_bound { length s.now ≤ 65536 }
    requires rows_in_bounds { rows_at + 3 * range.count ≤ length table.old }
    requires credential_le_first { credential ≤ range.first }
    requires range_in_bounds { range.first + 65 * range.count ≤ length s.now }
    ensures { table.new ≡ put table.old rows_at (rows s.now (slots_in credential range.count range.first)) }
{
    for i in 0..range.count as usize {
        let at = range.first + transaction::SIGNATURE_WIDTH * i;
        put_row(s, table, rows_at + ROW * i, credential, at);
    }
}

// Writes the rows of all slots. The first credential starts at `at`.
fn put_slots(s: &[u8], table: &mut [u32], at: usize, credentials: u64)
    requires s_len_bound { length s.now ≤ 65536 }
    requires at_in_bounds { 3 * length (scan_from 0 credentials s.now at) ≤ length table.old }
    ensures { table.new ≡ put table.old 0 (rows s.now (scan_from 0 credentials s.now at)) }
{
    let mut credential_at = at;
    let mut rows_at = 0;
    for credential in 0..credentials as usize {
        let Some(range) = draft_slots::ranges::range_at(s, credential_at) else {
            return;
        };
        put_range(s, table, rows_at, credential, range);
        rows_at += ROW * range.count as usize;
        credential_at = range.next;
    }
}

// Checks the bytes, and writes a row of three numbers for each slot: credential, offset, filled. A memo may have at most `most` bytes.
fn list_slots_within(s: &[u8], table: &mut [u32], most: u64) -> Result<(usize, usize), Refusal>
    ensures { filled result table.new ≡ tabled_slots most s.now table.old }
{
    let (layout, end) = checker::check::check_within(s, most)?;
    let at = layout.credentials_at + 4;
    let credentials = layout.credentials_count;
    let slots = count(s, at, credentials);
    if table.len() / ROW < slots {
        return Err(wire::refuse(Rule::NoRoom, 0));
    }
    put_slots(s, table, at, credentials);
    Ok((slots, end))
}

// Checks a transaction and lists its slots in a lent table, a row each: credential, offset, filled. A refusal leaves the table as it was.
pub fn list_slots(s: &[u8], table: &mut [u32]) -> Result<(usize, usize), Refusal>
    ensures { filled result table.new ≡ tabled_slots memo_most s.now table.old }
{
    list_slots_within(s, table, transaction::MEMO_MOST)
}
