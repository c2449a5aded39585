// Outputs of the four types, and lists of them.
ghost use Rattle.std.specs.Prelude.{◌≡◌, ℕ, Result};
ghost use Rattle.wire.specs.declared.Refusal.{Refusal};
ghost use Rattle.wire.specs.Series.{nondecreasing};
ghost use Rattle.wire.specs.code.Answer.{ended};
ghost use Rattle.element.specs.Outputs.{amount, transfer_body, output, transferable_output};
ghost use Rattle.element.specs.Operations.{secp_fx, nft_fx, fx_of, fx_outputs};
ghost use Rattle.element.specs.code.Answer.{ordered};

use crate::{NFT_MINT, NFT_TRANSFER, SECP_MINT, SECP_TRANSFER};
use wire::{Refusal, Rule};

// An amount, which must not be 0.
pub(crate) fn amount_at(s: &[u8], at: usize) -> Result<usize, Refusal>
    ensures { result ≡ ended amount s.now at }
{
    let (amount, next) = wire::u64_at(s, at)?;
    if amount == 0 {
        return Err(wire::refuse(Rule::ZeroAmount, at));
    }
    Ok(next)
}

// What follows type 7: amount, owners.
fn transfer_body_at(s: &[u8], at: usize) -> Result<usize, Refusal>
    ensures { result ≡ ended transfer_body s.now at }
{
    let after_amount = amount_at(s, at)?;
    owners::owners_at(s, after_amount)
}

// An output under FxID 0: type 6 and owners, or type 7, amount and owners.
fn secp_at(s: &[u8], at: usize) -> Result<usize, Refusal>
    ensures { result ≡ ended (output (fx_outputs secp_fx)) s.now at }
{
    let (type_id, body) = wire::u32_at(s, at)?;
    match type_id {
        SECP_MINT => owners::owners_at(s, body),
        SECP_TRANSFER => transfer_body_at(s, body),
        _ => Err(wire::refuse(Rule::UnknownType, at)),
    }
}

// An output under FxID 1: type 10, group and owners, or type 11, group, payload and owners.
fn nft_at(s: &[u8], at: usize) -> Result<usize, Refusal>
    ensures { result ≡ ended (output (fx_outputs nft_fx)) s.now at }
{
    let (type_id, group_at) = wire::u32_at(s, at)?;
    match type_id {
        NFT_MINT => {
            let (_, after_group) = wire::u32_at(s, group_at)?;
            owners::owners_at(s, after_group)
        }
        NFT_TRANSFER => {
            let (_, payload_at) = wire::u32_at(s, group_at)?;
            let after_payload = string::string_at(s, payload_at, string::PAYLOAD_MOST)?;
            owners::owners_at(s, after_payload)
        }
        _ => Err(wire::refuse(Rule::UnknownType, at)),
    }
}

// An output of a type that the FxID allows.
fn output_under(s: &[u8], at: usize, fx: u64) -> Result<usize, Refusal>
    ensures { result ≡ ended (output (fx_outputs (fx_of fx))) s.now at }
{
    if fx == 0 {
        secp_at(s, at)
    } else {
        nft_at(s, at)
    }
}

// A transferable output: asset id, then an output of type 7.
fn transferable_at(s: &[u8], at: usize) -> Result<usize, Refusal>
    ensures { result ≡ ended transferable_output s.now at }
{
    let type_at = wire::field_at(s, at, 32)?;
    let (type_id, body) = wire::u32_at(s, type_at)?;
    if type_id != SECP_TRANSFER {
        return Err(wire::refuse(Rule::UnknownType, type_at));
    }
    transfer_body_at(s, body)
}

// `count` outputs from `start` on, none below the one before. `read` reads the output at an offset.
fn outputs_by<F: Fn(usize) -> Result<usize, Refusal>>(
    s: &[u8],
    start: usize,
    count: u64,
    read: F,
) -> Result<usize, Refusal>
    requires { F.IsAlwaysCallable read }
    ensures { (f : ℕ → Result ℕ Refusal) → ((at : ℕ) (r : _) → F.post read at r → r ≡ f at) → result ≡ ordered f s.now start start count }
{
    let mut prev = start;
    let mut at = start;
    for _ in 0..count {
        let next = read(at)?;
        if wire::next_below(s, prev, at, next) {
            return Err(wire::refuse(Rule::OutOfOrder, at));
        }
        prev = at;
        at = next;
    }
    Ok(at)
}

// `count` transferable outputs from `start` on, none below the one before.
pub fn outputs_from(s: &[u8], start: usize, count: u64) -> Result<usize, Refusal>
    ensures { result ≡ ended (nondecreasing transferable_output count) s.now start }
{
    outputs_by(s, start, count, |at| transferable_at(s, at))
}

// `count` outputs of the types that the FxID allows, from `start` on, none below the one before.
pub(crate) fn outputs_under(s: &[u8], start: usize, count: u64, fx: u64) -> Result<usize, Refusal>
    ensures { result ≡ ended (nondecreasing (output (fx_outputs (fx_of fx))) count) s.now start }
{
    outputs_by(s, start, count, |at| output_under(s, at, fx))
}
