// Steps from one entry of an accepted transaction to the next. On other bytes the steps end too, but the entries mean nothing.
// Each step is inlined: a loop over the entries then keeps its cursor in registers, where a call would take and answer it in memory.
ghost use Rattle.std.specs.Prelude.{◌≡◌, ◌<◌};
ghost use Rattle.wire.specs.code.Answer.{ended};
ghost use Rattle.transaction.specs.declared.ListName.TheVariants as L;
ghost use Rattle.entry_walk.specs.code.Walk.{CountedAdvance, LaterAdvance, ElementAdvance, StateOutputAdvance, CredentialAdvance, AdvanceAhead, start};
ghost use Rattle.entry_walk.specs.code.Walk.{credential_bytes, Entered, Shorter};

use crate::{Advance, CREDENTIAL, Cursor, HEAD_WIDTH, Row, STATE_OUTPUT};
use plan::{Due, rows};
use transaction::ListName;
use wire::Refusal;

// The cursor before the first segment.
pub fn first() -> Cursor
    ensures { result ≡ start }
{
    Cursor {
        phase: 0,
        at: HEAD_WIDTH,
        left: 0,
        inner: 0,
    }
}

// Enters the list whose count is at `at`.
#[inline(always)]
fn advance_counted(s: &[u8], phase: u32, at: usize) -> Advance
    ensures counted_advance { CountedAdvance phase s.now at result }
    ensures entered { Entered phase result }
{
    let Ok((left, first)) = wire::u32_at(s, at) else {
        return Advance::Done;
    };
    Advance::Moved(Cursor {
        phase,
        at: first,
        left,
        inner: 0,
    })
}

// Enters the next segment, or skips it if it is a field.
#[inline(always)]
fn advance_later(s: &[u8], type_id: u32, cursor: Cursor) -> Advance
    ensures later_advance { LaterAdvance type_id s.now cursor result }
    ensures shorter { Shorter cursor result }
{
    if plan::LAST_PHASE < cursor.phase {
        return Advance::Done;
    }
    let phase = cursor.phase + 1;
    match rows::due_at(type_id, phase) {
        Due::Nothing => Advance::Done,
        Due::Finish | Due::List(_, _) => advance_counted(s, phase, cursor.at),
        Due::Field(field) => Advance::Moved(Cursor {
            phase,
            at: rows::field_past(s, cursor.at, field),
            left: 0,
            inner: 0,
        }),
    }
}

// Enters an initial state, just past its FxID and the count of its outputs.
#[inline(always)]
fn advance_state(s: &[u8], cursor: Cursor) -> Advance
    requires { 0 < cursor.left }
    ensures element_advance { ElementAdvance L.State s.now cursor result }
    ensures shorter { Shorter cursor result }
{
    let Ok((_, outputs)) = wire::u32_at(s, cursor.at) else {
        return Advance::Done;
    };
    let Ok((inner, first)) = wire::u32_at(s, outputs) else {
        return Advance::Done;
    };
    Advance::Moved(Cursor {
        at: first,
        left: cursor.left - 1,
        inner,
        ..cursor
    })
}

// Steps over an element, which is an entry; enters an initial state, whose outputs are the entries.
#[inline(always)]
fn advance_element(s: &[u8], list: ListName, cursor: Cursor) -> Advance
    requires { 0 < cursor.left }
    ensures element_advance { ElementAdvance list s.now cursor result }
    ensures shorter { Shorter cursor result }
{
    let entry_kind = rows::entry_of(list);
    if entry_kind == STATE_OUTPUT {
        return advance_state(s, cursor);
    }
    let Ok((_, end)) = rows::element_past(s, cursor.at, list) else {
        return Advance::Done;
    };
    let row = Row {
        kind: entry_kind,
        start: cursor.at,
        end,
    };
    let next = Cursor {
        at: end,
        left: cursor.left - 1,
        inner: 0,
        ..cursor
    };
    Advance::Found(row, next)
}

// The functions that find a row stay apart: one for all would take what is skipped, the kind, and which count goes down.
#[inline(always)]
fn advance_state_output(s: &[u8], cursor: Cursor) -> Advance
    requires { 0 < cursor.inner }
    ensures state_output_advance { StateOutputAdvance s.now cursor result }
    ensures shorter { Shorter cursor result }
{
    let Ok(end) = element_lengths::output_past(s, cursor.at) else {
        return Advance::Done;
    };
    let row = Row {
        kind: STATE_OUTPUT,
        start: cursor.at,
        end,
    };
    let next = Cursor {
        at: end,
        inner: cursor.inner - 1,
        ..cursor
    };
    Advance::Found(row, next)
}

// The offset just past a credential: its type, the count of its signatures, and the signatures.
fn credential_past(s: &[u8], at: usize) -> Result<usize, Refusal>
    ensures { result ≡ ended credential_bytes s.now at }
{
    let (_, count_at) = wire::u32_at(s, at)?;
    let (signatures, first) = wire::u32_at(s, count_at)?;
    wire::field_at(s, first, transaction::SIGNATURE_WIDTH * signatures as usize)
}

#[inline(always)]
fn advance_credential(s: &[u8], cursor: Cursor) -> Advance
    requires { 0 < cursor.left }
    ensures credential_advance { CredentialAdvance s.now cursor result }
    ensures shorter { Shorter cursor result }
{
    let Ok(end) = credential_past(s, cursor.at) else {
        return Advance::Done;
    };
    let row = Row {
        kind: CREDENTIAL,
        start: cursor.at,
        end,
    };
    let next = Cursor {
        at: end,
        left: cursor.left - 1,
        inner: 0,
        ..cursor
    };
    Advance::Found(row, next)
}

// The entry at a cursor and the cursor just past it; or, at the end of a segment, the cursor in the next one.
#[inline(always)]
pub fn advance(s: &[u8], type_id: u32, cursor: Cursor) -> Advance
    ensures advance_ahead { AdvanceAhead type_id s.now cursor result }
    ensures shorter { Shorter cursor result }
{
    match rows::due_at(type_id, cursor.phase) {
        Due::Nothing | Due::Field(_) => advance_later(s, type_id, cursor),
        Due::Finish if cursor.left == 0 => Advance::Done,
        Due::Finish => advance_credential(s, cursor),
        Due::List(_, _) if 0 < cursor.inner => advance_state_output(s, cursor),
        Due::List(list, _) if 0 < cursor.left => advance_element(s, list, cursor),
        Due::List(_, _) => advance_later(s, type_id, cursor),
    }
}
