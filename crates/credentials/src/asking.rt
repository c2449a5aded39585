// The credentials wanted, one after another: each is asked for by an element of a list or by a field. The unsigned part has been read, so its
// elements and fields are skipped by their lengths.
ghost use Rattle.std.specs.Prelude.{◌≡◌, ◌<◌};
ghost use Rattle.transaction.specs.Plan.{plan_of};
ghost use Rattle.plan.specs.Due.{due};
ghost use Rattle.credentials.specs.code.Wanted.{ListBegins, Begins, BegunLive, ElementWants, NextWants, first_wanting};

use crate::{Begun, Wanted, Wanting};
use plan::{Due, rows};
use transaction::{Layout, ListName};

// The cursor just past the outputs, which ask for nothing: before the first element that may ask.
pub fn first_wanting(layout: Layout) -> Wanting
    ensures { result ≡ first_wanting layout }
{
    Wanting {
        phase: 2,
        asks: 0,
        at: layout.inputs_at,
        left: 0,
    }
}

// Enters a list; skips it if its elements ask for no credentials.
fn list_begun(s: &[u8], at: usize, list: ListName) -> Option<Begun>
    ensures { ListBegins list s.now at result }
{
    let (count, first) = wire::u32_at(s, at).ok()?;
    let asks = rows::credential_of(list);
    if asks == 0 {
        let next = rows::elements_past(s, first, count, list).ok()?;
        return Some(Begun::Into {
            asks: 0,
            count: 0,
            start: next,
        });
    }
    Some(Begun::Into {
        asks,
        count,
        start: first,
    })
}

// Enters the next segment.
fn begun_at(s: &[u8], type_id: u32, phase: u32, at: usize) -> Option<Begun>
    ensures begins { Begins (due phase (plan_of type_id)) s.now at result }
    ensures begun_live { BegunLive (due phase (plan_of type_id)) result }
{
    match rows::due_at(type_id, phase) {
        Due::Nothing | Due::Finish => None,
        Due::List(list, _) => list_begun(s, at, list),
        Due::Field(field) => {
            let next = rows::field_past(s, at, field);
            let asks = rows::field_credential(field);
            if asks == 0 {
                return Some(Begun::Into {
                    asks: 0,
                    count: 0,
                    start: next,
                });
            }
            Some(Begun::Asks {
                credential: asks,
                signatures: rows::field_signatures(s, at, field),
                next,
            })
        }
    }
}

// The credential that the current element of a list asks for.
fn element_wanted(s: &[u8], from: Wanting) -> Option<Wanted>
    requires { 0 < from.left }
    ensures { ElementWants s.now from result }
{
    let (signatures, at) = rows::asking_past(s, from.at, from.asks).ok()?;
    Some(Wanted {
        credential: from.asks,
        signatures,
        next: Wanting {
            phase: from.phase,
            asks: from.asks,
            at,
            left: from.left - 1,
        },
    })
}

// The credential wanted next. The cursor is kept as separate locals, which is faster if this function is not inlined.
pub fn next_wanted(s: &[u8], type_id: u32, from: Wanting) -> Option<Wanted>
    ensures { NextWants type_id s.now from result }
{
    let mut phase = from.phase;
    let mut asks = from.asks;
    let mut at = from.at;
    let mut left = from.left;
    while left == 0 {
        match begun_at(s, type_id, phase, at)? {
            Begun::Asks {
                credential,
                signatures,
                next,
            } => {
                return Some(Wanted {
                    credential,
                    signatures,
                    next: Wanting {
                        phase: phase + 1,
                        asks: credential,
                        at: next,
                        left: 0,
                    },
                });
            }
            Begun::Into {
                asks: credential,
                count,
                start,
            } => {
                phase += 1;
                asks = credential;
                at = start;
                left = count;
            }
        }
    }
    element_wanted(
        s,
        Wanting {
            phase,
            asks,
            at,
            left,
        },
    )
}

// `next_wanted` with a fast path inside a list, short enough that the compiler inlines it in a loop over credentials.
pub(crate) fn next_wanted_fast(s: &[u8], type_id: u32, from: Wanting) -> Option<Wanted>
    ensures { NextWants type_id s.now from result }
{
    if 0 < from.left {
        return element_wanted(s, from);
    }
    next_wanted(s, type_id, from)
}
