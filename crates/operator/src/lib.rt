// The functions that the operator's command calls in addition to those of the phone program, by the exports of `operator_c`.
#![tactic(auto)]

ghost use Rattle.std.specs.Prelude.{◌≡◌};
ghost use Rattle.transaction.specs.Answer.{memo_most};
ghost use Rattle.entry_table.specs.Table.{tabled};
ghost use Rattle.draft_slot_table.specs.Table.{tabled_slots};
ghost use Rattle.operator.specs.Listing.{packed, listing, listed};

use wire::Refusal;

pub mod uploads;

// An answer as one integer: how many rows were written, or number × 2^32 + place.
fn word(answer: Result<(usize, usize), Refusal>) -> u64
    ensures { result ≡ packed answer }
{
    match answer {
        Ok((rows, _)) => (rows % 4294967296) as u64,
        Err(refusal) => uploads::refusal_word(refusal),
    }
}

// Checks a transaction and lists its entries in a lent table, a row each: kind, start, length.
pub fn cellfacet_rows(bytes: &[u8], table: &mut [u32]) -> u64
    ensures { listing result table.new ≡ listed (tabled memo_most bytes.now table.old) }
{
    word(entry_table::rows::check_table(bytes, table))
}

// Checks a transaction and lists its slots in a lent table, a row each: credential, offset, filled.
pub fn cellfacet_slots(bytes: &[u8], table: &mut [u32]) -> u64
    ensures { listing result table.new ≡ listed (tabled_slots memo_most bytes.now table.old) }
{
    word(draft_slot_table::list_slots(bytes, table))
}
