// Skips elements that were read, by their lengths: no rule is checked again. On bytes that were not read the answer means nothing.
#![tactic(auto)]

ghost use Rattle.std.specs.Prelude.{List, ℕ, ◌≤◌, length};
ghost use Rattle.wire.specs.Fields.{blob};
ghost use Rattle.wire.specs.Sequence.{and_then};
ghost use Rattle.wire.specs.Series.{not_below};
ghost use Rattle.wire.specs.code.Answer.{Passes, Tells};
ghost use Rattle.string.specs.Strings.{payload};
ghost use Rattle.owners.specs.Owners.{owners};
ghost use Rattle.element.specs.Outputs.{output, transferable_output};
ghost use Rattle.element.specs.Inputs.{input};
ghost use Rattle.element.specs.Operations.{terms, action, operation, operation_owners, operation_type, Fx, fx_outputs, initial_state};
ghost use Rattle.element_lengths.specs.code.Lengths.{by_count, Repeated};

use wire::Refusal;

// The widths of fields in bytes: an asset or transaction id, an address, an address index, an amount, an NFT group and an FxID.
const ID_WIDTH: usize = 32;

const ADDRESS_WIDTH: usize = 20;

const INDEX_WIDTH: usize = 4;

const AMOUNT_WIDTH: usize = 8;

const GROUP_WIDTH: usize = 4;

const FX_WIDTH: usize = 4;

// The width of a key: a transaction id and an output index.
const KEY_WIDTH: usize = 36;

// The bytes before the number of addresses: locktime and threshold.
const BEFORE_ADDRESSES: usize = 12;

// The bytes before the number of an input's address indices: key, asset id, type and amount.
const BEFORE_INDICES: usize = 80;

// A count, then that many elements of `width` bytes each; returns the count. The width is small, so the product fits a usize.
fn list_past(s: &[u8], at: usize, width: usize) -> Result<(u64, usize), Refusal>
    requires { width ≤ 64 }
    ensures { Tells (by_count width) (λ v. v.0) s.now at result }
{
    let (count, first) = wire::u32_at(s, at)?;
    let next = wire::field_at(s, first, width * count as usize)?;
    Ok((count, next))
}

fn owners_past(s: &[u8], at: usize) -> Result<usize, Refusal>
    ensures { Passes owners s.now at result }
{
    let addresses = wire::field_at(s, at, BEFORE_ADDRESSES)?;
    let (_, next) = list_past(s, addresses, ADDRESS_WIDTH)?;
    Ok(next)
}

// Owners after a field of `width` bytes.
fn owners_after(s: &[u8], at: usize, width: usize) -> Result<usize, Refusal>
    ensures { Passes (and_then (blob width) (λ field. owners)) s.now at result }
{
    let next = wire::field_at(s, at, width)?;
    owners_past(s, next)
}

// `count` elements from `start` on, each skipped by `past`, which takes its offset.
fn each_past<F: Fn(usize) -> Result<usize, Refusal>>(
    start: usize,
    count: u64,
    past: F,
) -> Result<usize, Refusal>
    requires { F.IsAlwaysCallable past }
    ensures { Repeated (F.post past) count start result }
{
    let mut at = start;
    for _ in 0..count {
        at = past(at)?;
    }
    Ok(at)
}

// What follows type 11: group, payload, owners.
fn payload_past(s: &[u8], at: usize) -> Result<usize, Refusal>
    ensures { Passes (and_then (blob 4) (λ group. and_then payload (λ p. owners))) s.now at result }
{
    let payload = wire::field_at(s, at, GROUP_WIDTH)?;
    let next = string::string_past(s, payload)?;
    owners_past(s, next)
}

// An output of any type.
pub fn output_past(s: &[u8], at: usize) -> Result<usize, Refusal>
    ensures { (fx : Fx) → Passes (output (fx_outputs fx)) s.now at result }
{
    let (type_id, body) = wire::u32_at(s, at)?;
    match type_id {
        element::SECP_MINT => owners_past(s, body),
        element::SECP_TRANSFER => owners_after(s, body, AMOUNT_WIDTH),
        element::NFT_MINT => owners_after(s, body, GROUP_WIDTH),
        _ => payload_past(s, body),
    }
}

// A transferable output: asset id, then output.
pub fn transferable_past(s: &[u8], at: usize) -> Result<usize, Refusal>
    ensures { (prev : List ℕ) → Passes (not_below transferable_output prev) s.now at result }
{
    let next = wire::field_at(s, at, ID_WIDTH)?;
    output_past(s, next)
}

// An input; returns the number of its address indices. One test covers all fields before the indices, and their count.
pub fn input_past(s: &[u8], at: usize) -> Result<(u64, usize), Refusal>
    ensures { (prev : List ℕ) → Tells (input prev) (λ v. length v.indices) s.now at result }
{
    let first = wire::field_at(s, at, BEFORE_INDICES + 4)?;
    let count_at = at + BEFORE_INDICES;
    let (count, _) = wire::u32_at(s, count_at)?;
    let next = wire::field_at(s, first, INDEX_WIDTH * count as usize)?;
    Ok((count, next))
}

// Address indices, group, payload; returns the number of address indices.
fn terms_past(s: &[u8], at: usize) -> Result<(u64, usize), Refusal>
    ensures { Tells terms (λ v. length v.0) s.now at result }
{
    let (count, group) = list_past(s, at, INDEX_WIDTH)?;
    let payload = wire::field_at(s, group, GROUP_WIDTH)?;
    let next = string::string_past(s, payload)?;
    Ok((count, next))
}

// What follows the terms, by the operation's type: a list of owners for a mint, owners for a transfer.
fn recipients_past(s: &[u8], at: usize, type_id: u64) -> Result<usize, Refusal>
    ensures { Passes (operation_owners (operation_type type_id)) s.now at result }
{
    match type_id {
        element::MINT_OPERATION => {
            let (count, first) = wire::u32_at(s, at)?;
            each_past(first, count, |owners| owners_past(s, owners))
        }
        _ => owners_past(s, at),
    }
}

// What follows an operation's pairs: type, terms, recipients. Returns the number of address indices.
fn action_past(s: &[u8], at: usize) -> Result<(u64, usize), Refusal>
    ensures { Tells action (λ v. length v.1.0.0) s.now at result }
{
    let (type_id, terms) = wire::u32_at(s, at)?;
    let (asked, recipients) = terms_past(s, terms)?;
    let next = recipients_past(s, recipients, type_id)?;
    Ok((asked, next))
}

// An operation; returns the number of its address indices.
pub fn operation_past(s: &[u8], at: usize) -> Result<(u64, usize), Refusal>
    ensures { Tells operation (λ v. length v.terms.0) s.now at result }
{
    let pairs = wire::field_at(s, at, ID_WIDTH)?;
    let (_, action) = list_past(s, pairs, KEY_WIDTH)?;
    action_past(s, action)
}

// An initial state: FxID, then a list of outputs.
pub fn state_past(s: &[u8], at: usize) -> Result<usize, Refusal>
    ensures { (prev : List ℕ) → Passes (initial_state prev) s.now at result }
{
    let outputs = wire::field_at(s, at, FX_WIDTH)?;
    let (count, first) = wire::u32_at(s, outputs)?;
    each_past(first, count, |output| output_past(s, output))
}
