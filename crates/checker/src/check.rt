// The check of a whole transaction.
ghost use Rattle.std.specs.Prelude.{◌≡◌};
ghost use Rattle.transaction.specs.Answer.{memo_most, checked};
ghost use Rattle.transaction.specs.code.Answer.{SignedAt};

use crate::body;
use credentials::reading;
use transaction::Layout;
use wire::{Refusal, Rule};

// The credentials after an unsigned part with this layout, and nothing after them.
fn signed_at(s: &[u8], layout: Layout) -> Result<(Layout, usize), Refusal>
    ensures { SignedAt layout s.now result }
{
    let end = reading::credentials_at(s, layout)?;
    if end != s.len() {
        return Err(wire::refuse(Rule::BytesAfterEnd, end));
    }
    Ok((layout, end))
}

// Accepts the bytes, or names the first broken rule and its place. A memo has at most `most` bytes.
pub fn check_within(s: &[u8], most: u64) -> Result<(Layout, usize), Refusal>
    ensures { result ≡ checked most s.now }
{
    if transaction::MOST_BYTES < s.len() {
        return Err(wire::refuse(Rule::TooLong, 0));
    }
    let layout = body::unsigned_at(s, most)?;
    signed_at(s, layout)
}

pub fn check(s: &[u8]) -> Result<(Layout, usize), Refusal>
    ensures { result ≡ checked memo_most s.now }
{
    check_within(s, transaction::MEMO_MOST)
}
