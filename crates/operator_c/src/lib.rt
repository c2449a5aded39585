// The static library of the operator's command: what `operator` gives, under the same contracts, as functions that C calls.
#![tactic(auto)]

ghost use Rattle.std.specs.Prelude.{◌≡◌};
ghost use Rattle.transaction.specs.Answer.{memo_most};
ghost use Rattle.entry_table.specs.Table.{tabled};
ghost use Rattle.draft_slot_table.specs.Table.{tabled_slots};
ghost use Rattle.upload.specs.Calls.{piece_call, end_call};
ghost use Rattle.operator.specs.Listing.{listing, listed};
ghost use Rattle.operator.specs.Uploads.{upload_of, end_word, sent, sent_piece};

use operator::uploads;

#[unsafe(no_mangle)]
pub extern "C" fn cellfacet_rows(bytes: &[u8], table: &mut [u32]) -> u64
    ensures { listing result table.new ≡ listed (tabled memo_most bytes.now table.old) }
{
    operator::cellfacet_rows(bytes, table)
}

#[unsafe(no_mangle)]
pub extern "C" fn cellfacet_slots(bytes: &[u8], table: &mut [u32]) -> u64
    ensures { listing result table.new ≡ listed (tabled_slots memo_most bytes.now table.old) }
{
    operator::cellfacet_slots(bytes, table)
}

#[unsafe(no_mangle)]
pub extern "C" fn cellfacet_upload_piece(
    state: &mut [u64; 2],
    store: &mut [u8],
    piece: &[u8],
) -> u64
    ensures { sent result state.new store.new
        ≡ sent_piece (piece_call memo_most (upload_of state.old) store.old piece.now) }
{
    uploads::cellfacet_upload_piece(state, store, piece)
}

#[unsafe(no_mangle)]
pub extern "C" fn cellfacet_upload_end(state: &[u64; 2], store: &[u8]) -> u64
    ensures { result ≡ end_word (end_call memo_most (upload_of state.now) store.now) }
{
    uploads::cellfacet_upload_end(state, store)
}
