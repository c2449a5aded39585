// The rules for an element given as bytes: the reader's own rules, and no byte may be left over.
ghost use Rattle.std.specs.Prelude.{◌≡◌, Ok};
ghost use Rattle.element.specs.Operations.{operation, initial_state};
ghost use Rattle.writer_rules.specs.Judged.{judged};
ghost use Rattle.writer_rules.specs.code.Judged.{end_judged};
ghost use Rattle.writer_rules.specs.Given.{given};

use wire::{Refusal, Rule};

// The verdict on `length` bytes whose reading ended as `read`.
#[tactic(auto, unfolding(crate::specs::code::Judged::end_judged))]
fn all_read(read: Result<usize, Refusal>, length: usize) -> Result<(), Refusal>
    ensures { result ≡ end_judged length read }
{
    let end = read.map_err(wire::without_place)?;
    if end != length {
        return crate::refuse_step(Rule::BytesAfterEnd);
    }
    Ok(())
}

pub fn operation_rules(bytes: &[u8]) -> Result<(), Refusal>
    ensures { result ≡ judged operation (given bytes.now) (Ok tt) }
{
    all_read(element::operations::operation_at(bytes, 0), bytes.len())
}

// Judges an initial state. Its FxID must be above that of `last`, the bytes of the state before it.
pub fn state_rules(last: &[u8], bytes: &[u8]) -> Result<(), Refusal>
    ensures { result ≡ judged (initial_state last.now) (given bytes.now) (Ok tt) }
{
    let (fx, first) = wire::u32_at(bytes, 0)?;
    if 1 < fx {
        return crate::refuse_step(Rule::UnknownType);
    }
    if !wire::is_below(wire::between(last, 0, 4), wire::between(bytes, 0, 4)) {
        return crate::refuse_step(Rule::OutOfOrder);
    }
    all_read(
        element::operations::state_outputs_at(bytes, first, fx),
        bytes.len(),
    )
}
