// The lent buffer: whether there is room in it, stores that are made whole or not at all, and the blank credentials at its end.
#![tactic(auto)]

ghost use Rattle.std.specs.Prelude.{◌≡◌, ◌+◌, ◌*◌, ◌≤◌, ◌++◌, length};
ghost use Rattle.writer_rules.specs.code.Elements.{integers_bytes};
ghost use Rattle.writer_buffer.specs.Stores.{room_in, room_for, overwrite};
ghost use Rattle.writer_buffer.specs.code.Stores.{with_integer, written};

use wire::{Refusal, Rule};

pub mod blank;

// Writes `value` into the four bytes at `at`, if the buffer has them.
pub fn put_u32(buf: &mut [u8], at: usize, value: u64)
    ensures { buf.new ≡ with_integer buf.old at value }
{
    if at <= buf.len() && 4 <= buf.len() - at {
        wire::put_integer(&mut buf[at..at + 4], value);
    }
}

// Copies `from` into the buffer at offset `at`.
fn put_at(buf: &mut [u8], at: usize, from: &[u8])
    requires { at + length from.now ≤ length buf.old }
    ensures { buf.new ≡ overwrite buf.old at from.now }
{
    buf[at..at + from.len()].copy_from_slice(from);
}

// Writes integers of four bytes each, one after the other.
fn put_integers(buf: &mut [u8], start: usize, numbers: &[u32])
    requires { start + 4 * length numbers.now ≤ length buf.old }
    ensures { buf.new ≡ overwrite buf.old start (integers_bytes numbers.now) }
{
    let mut at = start;
    for number in numbers {
        put_u32(buf, at, *number as u64);
        at += 4;
    }
}

// Writes two byte strings and then integers, one after the other.
fn put_all(buf: &mut [u8], at: usize, first: &[u8], second: &[u8], numbers: &[u32])
    requires { at + length ((first.now ++ second.now) ++ integers_bytes numbers.now) ≤ length buf.old }
    ensures { buf.new ≡ overwrite buf.old at ((first.now ++ second.now) ++ integers_bytes numbers.now) }
{
    put_at(buf, at, first);
    put_at(buf, at + first.len(), second);
    put_integers(buf, at + first.len() + second.len(), numbers);
}

// Do `width` more bytes fit into a buffer of `limit` bytes, and into a transaction?
fn room_for(at: usize, width: usize, limit: usize) -> Result<(), Refusal>
    ensures { result ≡ room_in (at + width) limit }
{
    let most = limit.min(transaction::MOST_BYTES);
    if most < at || most - at < width {
        return writer_rules::refuse_step(Rule::NoRoom);
    }
    Ok(())
}

// Do two byte strings and integers fit into a buffer of `limit` bytes, and into a transaction?
fn room_of(
    at: usize,
    first: &[u8],
    second: &[u8],
    numbers: &[u32],
    limit: usize,
) -> Result<(), Refusal>
    ensures { result ≡ room_in (at + length ((first.now ++ second.now) ++ integers_bytes numbers.now)) limit }
{
    if first.len().max(second.len()).max(numbers.len()) > transaction::MOST_BYTES {
        return writer_rules::refuse_step(Rule::NoRoom);
    }
    room_for(at, first.len() + second.len() + 4 * numbers.len(), limit)
}

// Stores two byte strings and then integers, one after the other, if there is room. Returns the offset just past them.
pub fn store(
    buf: &mut [u8],
    at: usize,
    first: &[u8],
    second: &[u8],
    numbers: &[u32],
) -> Result<usize, Refusal>
    ensures { (result, buf.new) ≡ written
        (room_for (at + length ((first.now ++ second.now) ++ integers_bytes numbers.now)) buf.old)
        buf.old at ((first.now ++ second.now) ++ integers_bytes numbers.now) }
{
    room_of(at, first, second, numbers, buf.len())?;
    put_all(buf, at, first, second, numbers);
    Ok(at + first.len() + second.len() + 4 * numbers.len())
}
