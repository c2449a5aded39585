// What the methods share: whether an element is due, and, after its rules are judged, the store and the next state.
ghost use Rattle.std.specs.Prelude.{◌≤◌, ◌≡◌, true, ◌&&◌, ◌++◌, Ok};
ghost use Rattle.plan.specs.Due.{is_open};
ghost use Rattle.plan.specs.code.Rows.{last_phase};
ghost use Rattle.writer_rules.specs.code.Elements.{integers_bytes};
ghost use Rattle.writer.specs.Steps.{prev, sane, guarded_in, after};
ghost use Rattle.writer.specs.code.Answer.{refused_step, not_due_step, stored_step, due_at, settled, segment_step, opens_next, element_step};

use crate::{Step, Writer};
use transaction::ListName;
use wire::{Refusal, Rule};

// The answer of a refused step, which changes neither state nor buffer.
pub fn refused(writer: Writer, refusal: Refusal) -> Step
    ensures { result ≡ refused_step writer refusal }
{
    Step {
        next: writer,
        answer: Err(refusal),
    }
}

pub fn not_due(writer: Writer) -> Step
    ensures { result ≡ not_due_step writer }
{
    refused(writer, wire::refuse(Rule::StepNotDue, 0))
}

// The tests that come first in each step: whether it is due, and whether a buffer of `length` bytes has the bytes written so far.
pub fn ready(writer: Writer, due: bool, length: usize) -> Result<(), Refusal>
    ensures { result ≡ guarded_in due writer length (Ok tt) }
{
    if !due {
        return writer_rules::refuse_step(Rule::StepNotDue);
    }
    if length < writer.at {
        return writer_rules::refuse_step(Rule::NoRoom);
    }
    Ok(())
}

pub fn stored(writer: Writer) -> Step
    ensures { result ≡ stored_step writer }
{
    Step {
        next: writer,
        answer: Ok(writer.at),
    }
}

// Do the count and the last element of the open list lie inside the bytes written?
fn is_sane(writer: Writer) -> bool
    ensures { result ≡ sane writer }
{
    4 <= writer.at
        && writer.list <= writer.at - 4
        && writer.last <= writer.at
        && (writer.count as usize) < transaction::MOST_BYTES
}

// The bytes of the open list's last element, empty if the list is.
pub fn last_of(writer: Writer, buf: &[u8]) -> &[u8]
    ensures { result.now ≡ prev writer buf.now }
{
    if writer.count == 0 {
        return &buf[..0];
    }
    wire::between(buf, writer.last, writer.at)
}

// Is an element of this list due, in a consistent state?
pub fn is_element_due(writer: Writer, list: ListName) -> bool
    ensures { result ≡ is_open list (due_at writer) && sane writer }
{
    writer_due::open_at(writer.type_id, writer.phase, list) && is_sane(writer)
}

// Stores a field at `from.at`, followed by the next list's count if one opens. A refusal keeps the state `writer`.
pub fn settle(
    writer: Writer,
    buf: &mut [u8],
    first: &[u8],
    second: &[u8],
    opens: bool,
    from: Writer,
) -> Step
    ensures { after result buf.new ≡ settled writer buf.old (first.now ++ second.now) opens from }
{
    let counts = usize::from(opens);
    match writer_buffer::store(buf, from.at, first, second, &[0u32][..counts]) {
        Err(refusal) => refused(writer, refusal),
        Ok(end) => stored(Writer {
            at: end,
            list: end - 4 * counts,
            count: 0,
            last: 0,
            ..from
        }),
    }
}

// Stores the segment that is due, followed by the next list's count if one opens: the bytes of a field, or none to close a list.
pub(crate) fn put_segment(writer: Writer, buf: &mut [u8], first: &[u8], second: &[u8]) -> Step
    requires { writer.phase ≤ last_phase }
    ensures { after result buf.new ≡ segment_step writer buf.old (first.now ++ second.now) (opens_next writer) }
{
    let phase = writer.phase + 1;
    let opens = writer_due::list_at(writer.type_id, phase);
    let from = Writer {
        phase,
        list: 0,
        count: 0,
        last: 0,
        ..writer
    };
    settle(writer, buf, first, second, opens, from)
}

// Stores an element after the others of the open list, and overwrites the list's count with the new one.
pub(crate) fn put_element(
    writer: Writer,
    buf: &mut [u8],
    first: &[u8],
    second: &[u8],
    numbers: &[u32],
) -> Step
    requires { sane writer ≡ true }
    ensures { after result buf.new ≡ element_step writer buf.old
        ((first.now ++ second.now) ++ integers_bytes numbers.now) }
{
    match writer_buffer::store(buf, writer.at, first, second, numbers) {
        Err(refusal) => refused(writer, refusal),
        Ok(end) => {
            let count = writer.count + 1;
            writer_buffer::put_u32(buf, writer.list, count as u64);
            stored(Writer {
                at: end,
                count,
                last: writer.at,
                ..writer
            })
        }
    }
}
