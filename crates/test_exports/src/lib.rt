// Functions for tests in C or Rust: the check with a lent table, entry n as integers at fixed indices of a lent array, filling a slot, and the
// writer's steps. `test_exports_c` exports them.
#![tactic(auto)]

ghost use Rattle.std.specs.Prelude.{◌≡◌, set};
ghost use Rattle.entry_table.specs.Table.{tabled};
ghost use Rattle.entry.specs.Entry.{entry_of};
ghost use Rattle.transaction.specs.Avm.{avm};
ghost use Rattle.transaction.specs.Answer.{memo_most};
ghost use Rattle.draft.specs.Reader.{reader};
ghost use Rattle.draft.specs.Calls.{fill_call};
ghost use Rattle.test_exports.specs.code.Encoded.{exported_table, encoded_table, encoded_fill};
ghost use Rattle.test_exports.specs.code.Values.{credential_values, entry_values, answer_values, exported_entry, encoded_entry, put_at, owners_values};
ghost use Rattle.test_exports.specs.code.Values.{output_values, input_values, recipients_values, operation_values};

use element::{InputFields, OperationFields, OutputFields, Recipients};
use entry::Found;
use owners::OwnersFields;
use transaction::{CredentialFields, Entry};
use wire::Refusal;

pub mod steps;

// Checks a transaction and lists its entries in a lent table. Returns number × 2^40 + rows × 2^20 + place.
pub fn cellfacet_test_table(bytes: &[u8], table: &mut [u32]) -> u64
    ensures { exported_table result table.new ≡ encoded_table (tabled memo_most bytes.now table.old) }
{
    match entry_table::rows::check_table(bytes, table) {
        Ok((rows, end)) => (rows % 1048576) as u64 * 1048576 + (end % 1048576) as u64,
        Err(refusal) => {
            (u32::from(refusal.rule) % 1048576) as u64 * 1099511627776
                + (refusal.place % 1048576) as u64
        }
    }
}

// A test and an index: after `if let Some(number) = numbers.get_mut(i)` a proof knows the length and not what was stored (tried).
fn put(numbers: &mut [u64], i: usize, value: u64)
    ensures { numbers.new ≡ set numbers.old i value }
{
    if i < numbers.len() {
        numbers[i] = value;
    }
}

fn put_owners(numbers: &mut [u64], owners: OwnersFields)
    ensures { numbers.new ≡ put_at (owners_values owners) numbers.old }
{
    put(numbers, 10, owners.locktime);
    put(numbers, 11, owners.threshold);
    put(numbers, 12, owners.addresses_at as u64);
    put(numbers, 13, owners.addresses_count);
}

fn put_output(numbers: &mut [u64], fields: OutputFields)
    ensures { numbers.new ≡ put_at (output_values fields) numbers.old }
{
    match fields {
        OutputFields::SecpMint(owners) => {
            put(numbers, 5, 6);
            put_owners(numbers, owners);
        }
        OutputFields::SecpTransfer { amount, owners } => {
            put(numbers, 5, 7);
            put(numbers, 6, amount);
            put_owners(numbers, owners);
        }
        OutputFields::NftMint { group, owners } => {
            put(numbers, 5, 10);
            put(numbers, 7, group);
            put_owners(numbers, owners);
        }
        OutputFields::NftTransfer {
            group,
            payload_at,
            payload_length,
            owners,
        } => {
            put(numbers, 5, 11);
            put(numbers, 7, group);
            put(numbers, 8, payload_at as u64);
            put(numbers, 9, payload_length);
            put_owners(numbers, owners);
        }
    }
}

fn put_input(numbers: &mut [u64], fields: InputFields)
    ensures { numbers.new ≡ put_at (input_values fields) numbers.old }
{
    put(numbers, 6, fields.amount);
    put(numbers, 14, fields.index);
    put(numbers, 15, fields.indices_at as u64);
    put(numbers, 16, fields.indices_count);
}

fn put_recipients(numbers: &mut [u64], recipients: Recipients)
    ensures { numbers.new ≡ put_at (recipients_values recipients) numbers.old }
{
    match recipients {
        Recipients::Mint {
            owners_at,
            owners_count,
        } => {
            put(numbers, 5, 12);
            put(numbers, 19, owners_at as u64);
            put(numbers, 20, owners_count);
        }
        Recipients::Transfer(owners) => {
            put(numbers, 5, 13);
            put_owners(numbers, owners);
        }
    }
}

fn put_operation(numbers: &mut [u64], fields: OperationFields)
    ensures { numbers.new ≡ put_at (operation_values fields) numbers.old }
{
    put(numbers, 17, fields.outputs_at as u64);
    put(numbers, 18, fields.outputs_count);
    put(numbers, 15, fields.terms.indices_at as u64);
    put(numbers, 16, fields.terms.indices_count);
    put(numbers, 7, fields.terms.group);
    put(numbers, 8, fields.terms.payload_at as u64);
    put(numbers, 9, fields.terms.payload_length);
    put_recipients(numbers, fields.recipients);
}

fn put_credential(numbers: &mut [u64], fields: CredentialFields)
    ensures { numbers.new ≡ put_at (credential_values fields) numbers.old }
{
    put(numbers, 5, fields.type_id);
    put(numbers, 21, fields.signatures_at as u64);
    put(numbers, 22, fields.signatures_count);
}

fn put_entry(numbers: &mut [u64], entry: Entry)
    ensures { numbers.new ≡ put_at (entry_values entry) numbers.old }
{
    match entry {
        Entry::Output(fields) => {
            put(numbers, 2, 1);
            put_output(numbers, fields);
        }
        Entry::Input(fields) => {
            put(numbers, 2, 2);
            put_input(numbers, fields);
        }
        Entry::Operation(fields) => {
            put(numbers, 2, 3);
            put_operation(numbers, fields);
        }
        Entry::ImportedInput(fields) => {
            put(numbers, 2, 4);
            put_input(numbers, fields);
        }
        Entry::ExportedOutput(fields) => {
            put(numbers, 2, 5);
            put_output(numbers, fields);
        }
        Entry::InitialStateOutput(fields) => {
            put(numbers, 2, 6);
            put_output(numbers, fields);
        }
        Entry::Credential(fields) => {
            put(numbers, 2, 7);
            put_credential(numbers, fields);
        }
    }
}

fn put_answer(numbers: &mut [u64], answer: Result<Found, Refusal>)
    ensures { numbers.new ≡ put_at (answer_values answer) numbers.old }
{
    match answer {
        Ok(found) => {
            put(numbers, 0, 0);
            put(numbers, 1, found.bytes as u64);
            put(numbers, 3, found.start as u64);
            put(numbers, 4, found.end as u64);
            put_entry(numbers, found.fields);
        }
        Err(refusal) => {
            put(numbers, 0, u32::from(refusal.rule) as u64);
            put(numbers, 1, refusal.place as u64);
        }
    }
}

// Stores entry `n`: its integers, each at its index if `numbers` has it, and its identifiers.
pub fn cellfacet_test_entry(
    bytes: &[u8],
    n: u64,
    numbers: &mut [u64],
    asset: &mut [u8],
    txid: &mut [u8],
)
    ensures { exported_entry numbers.new asset.new txid.new ≡ encoded_entry (entry_of memo_most bytes.now n)
        numbers.old asset.old txid.old }
{
    let read = entry::entry(bytes, n);
    put_answer(numbers, read.answer);
    wire::put_bytes(asset, &read.asset);
    wire::put_bytes(txid, &read.txid);
}

// Fills a slot of a draft, and stores the answer's number and place.
pub fn cellfacet_test_fill(draft: &mut [u8], slot: u64, signature: &[u8], answer: &mut [u64; 2])
    ensures { (answer.new, draft.new) ≡ encoded_fill
        (fill_call (reader (avm memo_most)) draft.old slot signature.now) }
{
    *answer = match draft::fill(draft, slot as usize, signature) {
        Ok(length) => [0, length as u64],
        Err(refusal) => [u32::from(refusal.rule) as u64, refusal.place as u64],
    };
}
