// Entry `n` of an accepted transaction as typed fields: its row is found step by step, and its fields by their offsets.
#![tactic(auto)]

ghost use Rattle.std.specs.Prelude.{◌≡◌};
ghost use Rattle.transaction.specs.Answer.{memo_most};
ghost use Rattle.wire.specs.Numbers.{refusal, no_entry};
ghost use Rattle.entry.specs.Entry.{refused_entry, entry_of};
ghost use Rattle.entry.specs.code.Typed.{output_after, credential_at, typed_at, after_key, asset_at, txid_at, row_entry, read_entry};

use element::OutputFields;
use entry_walk::Row;
use transaction::{CredentialFields, Entry};
use wire::{Refusal, Rule};

// An entry with its start, its end and the length of the whole transaction.
#[derive(Clone, Copy)]
pub struct Found {
    pub fields: Entry,
    pub start: usize,
    pub end: usize,
    pub bytes: usize,
}

// An entry, or why there is none, and its identifiers; an identifier that the entry does not have is all zeros.
#[derive(Clone, Copy)]
pub struct EntryRead {
    pub answer: Result<Found, Refusal>,
    pub asset: [u8; 32],
    pub txid: [u8; 32],
}

// An output after its asset id.
fn output_after(s: &[u8], at: usize) -> Option<OutputFields>
    ensures { result ≡ output_after s.now at }
{
    let output_at = wire::field_at(s, at, 32).ok()?;
    entry_fields::output_at(s, output_at)
}

fn credential_at(s: &[u8], at: usize) -> Option<CredentialFields>
    ensures { result ≡ credential_at s.now at }
{
    let (type_id, count_at) = wire::u32_at(s, at).ok()?;
    let (signatures_count, signatures_at) = wire::u32_at(s, count_at).ok()?;
    Some(CredentialFields {
        type_id,
        signatures_at,
        signatures_count,
    })
}

// The typed fields of an entry of this kind.
fn typed_at(s: &[u8], kind: u32, at: usize) -> Option<Entry>
    ensures { result ≡ typed_at kind s.now at }
{
    match kind {
        1 => output_after(s, at).map(Entry::Output),
        2 => entry_fields::input_at(s, at).map(Entry::Input),
        3 => entry_fields::operation_at(s, at).map(Entry::Operation),
        4 => entry_fields::input_at(s, at).map(Entry::ImportedInput),
        6 => entry_fields::output_at(s, at).map(Entry::InitialStateOutput),
        7 => credential_at(s, at).map(Entry::Credential),
        _ => output_after(s, at).map(Entry::ExportedOutput),
    }
}

// An input's asset id, which follows its key. The answer is the id and no `Option`, so `?` has nothing to return.
fn after_key(s: &[u8], at: usize) -> [u8; 32]
    ensures { result ≡ after_key s.now at }
{
    let Ok(index_at) = wire::field_at(s, at, 32) else {
        return [0; 32];
    };
    let Ok((_, asset_start)) = wire::u32_at(s, index_at) else {
        return [0; 32];
    };
    wire::array_at::<32>(s, asset_start)
}

// The asset id of an entry of this kind; outputs and operations start with it.
fn asset_at(s: &[u8], kind: u32, at: usize) -> [u8; 32]
    ensures { result ≡ asset_at kind s.now at }
{
    match kind {
        2 | 4 => after_key(s, at),
        6 | 7 => [0; 32],
        _ => wire::array_at::<32>(s, at),
    }
}

// The transaction id of an entry of this kind; only inputs have one, and they start with it.
fn txid_at(s: &[u8], kind: u32, at: usize) -> [u8; 32]
    ensures { result ≡ txid_at kind s.now at }
{
    match kind {
        2 | 4 => wire::array_at::<32>(s, at),
        _ => [0; 32],
    }
}

fn refused(refusal: Refusal) -> EntryRead
    ensures { result ≡ refused_entry refusal }
{
    EntryRead {
        answer: Err(refusal),
        asset: [0; 32],
        txid: [0; 32],
    }
}

// The refusal of an entry number that no entry has.
fn missing() -> Refusal
    ensures { result ≡ refusal no_entry 0 }
{
    wire::refuse(Rule::NoEntry, 0)
}

// The entry of a row, in a transaction of `bytes` bytes.
fn row_entry(s: &[u8], row: Row, bytes: usize) -> Option<EntryRead>
    ensures { result ≡ row_entry s.now bytes row }
{
    let fields = typed_at(s, row.kind, row.start)?;
    Some(EntryRead {
        answer: Ok(Found {
            fields,
            start: row.start,
            end: row.end,
            bytes,
        }),
        asset: asset_at(s, row.kind, row.start),
        txid: txid_at(s, row.kind, row.start),
    })
}

// Reads entry `n`, counted from 0. A memo has at most `most` bytes. Bytes that are not accepted get the check's own refusal.
fn read_within(s: &[u8], n: u64, most: u64) -> Result<EntryRead, Refusal>
    ensures { read_entry result ≡ entry_of most s.now n }
{
    let (layout, bytes) = checker::check::check_within(s, most)?;
    let row = entry_table::rows::find(s, layout.type_id, n).ok_or(missing())?;
    row_entry(s, row, bytes).ok_or(missing())
}

fn entry_within(s: &[u8], n: u64, most: u64) -> EntryRead
    ensures { result ≡ entry_of most s.now n }
{
    read_within(s, n, most).unwrap_or_else(refused)
}

pub fn entry(s: &[u8], n: u64) -> EntryRead
    ensures { result ≡ entry_of memo_most s.now n }
{
    entry_within(s, n, transaction::MEMO_MOST)
}
