// Why a step of the writer is refused, judged by the value or the bytes it is given.
#![tactic(auto)]

ghost use Rattle.std.specs.Prelude.{◌≡◌};
ghost use Rattle.writer_rules.specs.Judged.{refused_by};

use wire::{Refusal, Rule};

pub mod elements;
pub mod values;

// Refuses a step by a rule. The place is 0: what the step would add is not in the buffer yet.
pub fn refuse_step(rule: Rule) -> Result<(), Refusal>
    ensures { result ≡ refused_by rule }
{
    Err(wire::refuse(rule, 0))
}
