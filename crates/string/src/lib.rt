// Strings: a length, then that many bytes.
#![tactic(auto)]

ghost use Rattle.std.specs.Prelude.{◌≡◌, ℕ};
ghost use Rattle.wire.specs.code.Answer.{ended, Passes};
ghost use Rattle.string.specs.Strings.{string, memo, text, denomination};
ghost use Rattle.string.specs.Characters.{unprintable};

use wire::{Refusal, Rule};

// The most bytes of a name, a symbol and a payload.
pub const NAME_MOST: u64 = 128;

pub const SYMBOL_MOST: u64 = 4;

pub const PAYLOAD_MOST: u64 = 1024;

// A memo or a payload: a 32-bit length of at most `most`, then that many bytes.
pub fn string_at(s: &[u8], at: usize, most: u64) -> Result<usize, Refusal>
    ensures { result ≡ ended (string 4 most) s.now at }
{
    let (length, first) = wire::u32_at(s, at)?;
    if most < length {
        return Err(wire::refuse(Rule::BadLength, at));
    }
    wire::field_at(s, first, length as usize)
}

// The index of the first byte that is not printable, or the length if all are.
pub fn first_unprintable(s: &[u8]) -> usize
    ensures { result ≡ unprintable s.now }
{
    s.iter()
        .position(|x| !matches!(x, b' '..=b'~'))
        .unwrap_or(s.len())
}

// A name or a symbol: a 16-bit length from 1 to `most`, then that many printable characters.
pub fn text_at(s: &[u8], at: usize, most: u64) -> Result<usize, Refusal>
    ensures { result ≡ ended (text most) s.now at }
{
    let (length, first) = wire::u16_at(s, at)?;
    if length == 0 || most < length {
        return Err(wire::refuse(Rule::BadLength, at));
    }
    let next = wire::field_at(s, first, length as usize)?;
    let printable = first_unprintable(wire::between(s, first, next));
    if printable as u64 != length {
        return Err(wire::refuse(Rule::NotPrintable, first + printable));
    }
    Ok(next)
}

pub fn denomination_at(s: &[u8], at: usize) -> Result<usize, Refusal>
    ensures { result ≡ ended denomination s.now at }
{
    let (value, next) = wire::u8_at(s, at)?;
    if 32 < value {
        return Err(wire::refuse(Rule::BadDenomination, at));
    }
    Ok(next)
}

// Skips a memo or a payload that was read; its length is not checked again.
pub fn string_past(s: &[u8], at: usize) -> Result<usize, Refusal>
    ensures { (most : ℕ) → Passes (memo most) s.now at result }
{
    let (length, first) = wire::u32_at(s, at)?;
    wire::field_at(s, first, length as usize)
}

// Skips a name or a symbol that was read; neither its length nor its characters are checked again. A function for this one and `string_past`, by the
// reader of the length, would be longer than both.
pub fn text_past(s: &[u8], at: usize) -> Result<usize, Refusal>
    ensures { (most : ℕ) → Passes (text most) s.now at result }
{
    let (length, first) = wire::u16_at(s, at)?;
    wire::field_at(s, first, length as usize)
}
