// The typed fields of an element of an accepted transaction, found by their offsets alone: the check has already applied every rule.
#![tactic(auto)]

ghost use Rattle.std.specs.Prelude.{◌≡◌};
ghost use Rattle.entry_fields.specs.code.Found.{terms_found, recipients_found, action_found, operation_found, owners_found, mint_found, transfer_found};
ghost use Rattle.entry_fields.specs.code.Found.{nft_mint_found, nft_transfer_found, output_found, input_found};

use element::{InputFields, OperationFields, OutputFields, Recipients, TermsFields};
use owners::OwnersFields;

fn owners_at(s: &[u8], at: usize) -> Option<OwnersFields>
    ensures { result ≡ owners_found s.now at }
{
    let (locktime, threshold_at) = wire::u64_at(s, at).ok()?;
    let (threshold, count_at) = wire::u32_at(s, threshold_at).ok()?;
    let (addresses_count, addresses_at) = wire::u32_at(s, count_at).ok()?;
    Some(OwnersFields {
        locktime,
        threshold,
        addresses_at,
        addresses_count,
    })
}

// What follows type 6: owners.
fn mint_at(s: &[u8], at: usize) -> Option<OutputFields>
    ensures { result ≡ mint_found s.now at }
{
    Some(OutputFields::SecpMint(owners_at(s, at)?))
}

// What follows type 7: amount, owners.
fn transfer_at(s: &[u8], at: usize) -> Option<OutputFields>
    ensures { result ≡ transfer_found s.now at }
{
    let (amount, owners_start) = wire::u64_at(s, at).ok()?;
    let owners = owners_at(s, owners_start)?;
    Some(OutputFields::SecpTransfer { amount, owners })
}

// What follows type 10: group, owners.
fn nft_mint_at(s: &[u8], at: usize) -> Option<OutputFields>
    ensures { result ≡ nft_mint_found s.now at }
{
    let (group, owners_start) = wire::u32_at(s, at).ok()?;
    let owners = owners_at(s, owners_start)?;
    Some(OutputFields::NftMint { group, owners })
}

// What follows type 11: group, payload, owners.
fn nft_transfer_at(s: &[u8], at: usize) -> Option<OutputFields>
    ensures { result ≡ nft_transfer_found s.now at }
{
    let (group, length_at) = wire::u32_at(s, at).ok()?;
    let (payload_length, payload_at) = wire::u32_at(s, length_at).ok()?;
    let owners_start = wire::field_at(s, payload_at, payload_length as usize).ok()?;
    let owners = owners_at(s, owners_start)?;
    Some(OutputFields::NftTransfer {
        group,
        payload_at,
        payload_length,
        owners,
    })
}

// An output of any of the four types.
pub fn output_at(s: &[u8], at: usize) -> Option<OutputFields>
    ensures { result ≡ output_found s.now at }
{
    let (type_id, body_at) = wire::u32_at(s, at).ok()?;
    match type_id {
        element::SECP_MINT => mint_at(s, body_at),
        element::SECP_TRANSFER => transfer_at(s, body_at),
        element::NFT_MINT => nft_mint_at(s, body_at),
        _ => nft_transfer_at(s, body_at),
    }
}

// An input: transaction id, index, asset id, type, amount, address indices.
pub fn input_at(s: &[u8], at: usize) -> Option<InputFields>
    ensures { result ≡ input_found s.now at }
{
    let index_at = wire::field_at(s, at, 32).ok()?;
    let (index, asset_at) = wire::u32_at(s, index_at).ok()?;
    let type_at = wire::field_at(s, asset_at, 32).ok()?;
    let (_, amount_at) = wire::u32_at(s, type_at).ok()?;
    let (amount, count_at) = wire::u64_at(s, amount_at).ok()?;
    let (indices_count, indices_at) = wire::u32_at(s, count_at).ok()?;
    Some(InputFields {
        index,
        amount,
        indices_at,
        indices_count,
    })
}

// An operation's address indices, group and payload, and the offset just past them.
fn terms_at(s: &[u8], at: usize) -> Option<(TermsFields, usize)>
    ensures { result ≡ terms_found s.now at }
{
    let (indices_count, indices_at) = wire::u32_at(s, at).ok()?;
    let group_at = wire::field_at(s, indices_at, 4 * indices_count as usize).ok()?;
    let (group, length_at) = wire::u32_at(s, group_at).ok()?;
    let (payload_length, payload_at) = wire::u32_at(s, length_at).ok()?;
    let next = wire::field_at(s, payload_at, payload_length as usize).ok()?;
    Some((
        TermsFields {
            indices_at,
            indices_count,
            group,
            payload_at,
            payload_length,
        },
        next,
    ))
}

// What follows the terms: a list of owners for a mint, owners for a transfer.
fn recipients_at(s: &[u8], at: usize, type_id: u64) -> Option<Recipients>
    ensures { result ≡ recipients_found type_id s.now at }
{
    match type_id {
        element::MINT_OPERATION => {
            let (owners_count, owners_at) = wire::u32_at(s, at).ok()?;
            Some(Recipients::Mint {
                owners_at,
                owners_count,
            })
        }
        _ => Some(Recipients::Transfer(owners_at(s, at)?)),
    }
}

// What follows an operation's pairs: type, terms, recipients.
fn action_at(s: &[u8], at: usize, outputs_at: usize, outputs_count: u64) -> Option<OperationFields>
    ensures { result ≡ action_found outputs_at outputs_count s.now at }
{
    let (type_id, terms_start) = wire::u32_at(s, at).ok()?;
    let (terms, recipients_start) = terms_at(s, terms_start)?;
    let recipients = recipients_at(s, recipients_start, type_id)?;
    Some(OperationFields {
        outputs_at,
        outputs_count,
        terms,
        recipients,
    })
}

// An operation: asset id, (id, index) pairs, action.
pub fn operation_at(s: &[u8], at: usize) -> Option<OperationFields>
    ensures { result ≡ operation_found s.now at }
{
    let count_at = wire::field_at(s, at, 32).ok()?;
    let (outputs_count, outputs_at) = wire::u32_at(s, count_at).ok()?;
    let action_start = wire::field_at(s, outputs_at, 36 * outputs_count as usize).ok()?;
    action_at(s, action_start, outputs_at, outputs_count)
}
