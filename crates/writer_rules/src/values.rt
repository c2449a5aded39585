// The rules for fields and for closing a list, as tests on what a step is given.
ghost use Rattle.std.specs.Prelude.{◌≡◌};
ghost use Rattle.writer_rules.specs.code.Texts.{type_rules, list_rules, memo_rules, text_rules, denomination_rules};

use wire::{Refusal, Rule};

pub fn type_rules(type_id: u32) -> Result<(), Refusal>
    ensures { result ≡ type_rules type_id }
{
    if !plan::rows::is_type(u64::from(type_id)) {
        return crate::refuse_step(Rule::UnknownType);
    }
    Ok(())
}

// A list may be closed only with at least `least` elements.
pub fn list_rules(count: u32, least: u32) -> Result<(), Refusal>
    ensures { result ≡ list_rules count least }
{
    if count < least {
        return crate::refuse_step(Rule::EmptyList);
    }
    Ok(())
}

// A memo has at most `most` bytes; this one has `count`.
pub fn memo_rules(count: usize, most: u64) -> Result<(), Refusal>
    ensures { result ≡ memo_rules most count }
{
    if most < count as u64 {
        return crate::refuse_step(Rule::BadLength);
    }
    Ok(())
}

// A name or symbol has 1 to `most` characters, all printable.
pub fn text_rules(bytes: &[u8], most: usize) -> Result<(), Refusal>
    ensures { result ≡ text_rules most bytes.now }
{
    if bytes.is_empty() || most < bytes.len() {
        return crate::refuse_step(Rule::BadLength);
    }
    if string::first_unprintable(bytes) != bytes.len() {
        return crate::refuse_step(Rule::NotPrintable);
    }
    Ok(())
}

pub fn denomination_rules(value: u8) -> Result<(), Refusal>
    ensures { result ≡ denomination_rules value }
{
    if 32 < value {
        return crate::refuse_step(Rule::BadDenomination);
    }
    Ok(())
}
