// The blank credentials that end a transaction: one for each that the unsigned part wants, found by the iterator that the check uses too.
ghost use Rattle.std.specs.Prelude.{◌≡◌, ◌+◌, ◌^◌, ◌≤◌, ◌<◌, length, take, replicate};
ghost use Rattle.transaction.specs.Avm.{avm};
ghost use Rattle.writer_buffer.specs.Stores.{overwrite};
ghost use Rattle.writer_buffer.specs.code.Stores.{written};
ghost use Rattle.writer_buffer.specs.Closing.{closing, closable};
ghost use Rattle.writer_buffer.specs.code.Closing.{OfAhead, Room, AllAhead, OfAll, RoomForAll, blank_credential, credential_width, blank_bytes};
ghost use Rattle.writer_buffer.specs.code.Closing.{closing_bytes, fitted, most_in, closed};

use credentials::{Wanting, asking};
use transaction::Layout;
use wire::{Refusal, Rule};

// The bytes of a credential before its signatures: its type and their count.
const HEAD_WIDTH: usize = 8;

// Writes `count` zeros from `at` on.
fn put_zeros(buf: &mut [u8], at: usize, count: usize)
    requires { at + count ≤ length buf.old }
    ensures { buf.new ≡ overwrite buf.old at (replicate count 0) }
{
    buf[at..at + count].fill(0);
}

// Writes a credential of `count` blank signatures from `at` on. Returns the offset just past it.
fn put_blank(buf: &mut [u8], at: usize, code: u64, count: u64) -> usize
    requires { (code < 256 ^ 4) × (count < 256 ^ 4) × (at + credential_width count ≤ length buf.old) }
    ensures value { result ≡ at + credential_width count }
    ensures buf_after { buf.new ≡ overwrite buf.old at (blank_credential code count) }
{
    let first = at + HEAD_WIDTH;
    let width = transaction::SIGNATURE_WIDTH * count as usize;
    crate::put_u32(buf, at, code);
    crate::put_u32(buf, at + 4, count);
    put_zeros(buf, first, width);
    first + width
}

// The offset just past a credential of `count` signatures from `at` on, which must end by `limit`.
fn blank_end(at: usize, count: u64, limit: usize) -> Result<usize, Refusal>
    ensures { result ≡ fitted at (credential_width count) limit }
{
    if limit < at
        || limit - at < HEAD_WIDTH
        || (limit - at - HEAD_WIDTH) / transaction::SIGNATURE_WIDTH < count as usize
    {
        return Err(wire::refuse(Rule::NoRoom, 0));
    }
    Ok(at + HEAD_WIDTH + transaction::SIGNATURE_WIDTH * count as usize)
}

// The offset just past the `count` credentials wanted after the cursor `from`, if they are written from `start` on. They must end by `limit`.
fn blanks_end(
    s: &[u8],
    type_id: u32,
    from: Wanting,
    count: u64,
    start: usize,
    limit: usize,
) -> Result<usize, Refusal>
    requires { start ≤ limit }
    ensures { OfAhead type_id s.now from count (λ ws. result ≡ fitted start (length (blank_bytes ws)) limit) }
{
    let mut cursor = from;
    let mut at = start;
    for _ in 0..count {
        let Some(wanted) = asking::next_wanted(s, type_id, cursor) else {
            return Ok(at);
        };
        at = blank_end(at, wanted.signatures, limit)?;
        cursor = wanted.next;
    }
    Ok(at)
}

// Writes the `owed` credentials wanted after the cursor `from`, from `start` on. The elements that want them are in the first `end` bytes.
fn put_blanks(buf: &mut [u8], end: usize, type_id: u32, from: Wanting, owed: u64, start: usize)
    requires { Room type_id (take end buf.old) from owed end start (length buf.old) }
    ensures { OfAhead type_id (take end buf.old) from owed (λ ws. buf.new ≡ overwrite buf.old start (blank_bytes ws)) }
{
    let mut cursor = from;
    let mut at = start;
    for _ in 0..owed {
        let Some(wanted) = asking::next_wanted(&buf[..end], type_id, cursor) else {
            return;
        };
        at = put_blank(buf, at, wanted.credential, wanted.signatures);
        cursor = wanted.next;
    }
}

// The offset just past all credentials and their count, from `at` on. They must end by `limit`.
fn closing_end(s: &[u8], layout: Layout, at: usize, limit: usize) -> Result<usize, Refusal>
    ensures { OfAll layout s.now (λ ws. result ≡ fitted at (length (closing_bytes ws)) limit) }
{
    if limit < at || limit - at < 4 {
        return Err(wire::refuse(Rule::NoRoom, 0));
    }
    let from = asking::first_wanting(layout);
    blanks_end(
        s,
        layout.type_id,
        from,
        layout.credentials_count,
        at + 4,
        limit,
    )
}

// Writes all credentials and their count after the unsigned part, which ends at `at`.
fn put_closing(buf: &mut [u8], at: usize, layout: Layout)
    requires { RoomForAll layout (take at buf.old) at (length buf.old) }
    ensures { OfAll layout (take at buf.old) (λ ws. buf.new ≡ overwrite buf.old at (closing_bytes ws)) }
{
    let count = layout.credentials_count;
    let from = asking::first_wanting(layout);
    crate::put_u32(buf, at, count);
    put_blanks(buf, at, layout.type_id, from, count, at + 4);
}

// The most bytes that a transaction may have in a buffer of `length` bytes.
fn most_in(length: usize) -> usize
    ensures { result ≡ most_in length }
{
    length.min(transaction::MOST_BYTES)
}

// Writes all credentials of a layout, if there is room. Returns the offset just past them.
fn close_layout(buf: &mut [u8], at: usize, layout: Layout) -> Result<usize, Refusal>
    requires { (at ≤ length buf.old) × AllAhead layout (take at buf.old) }
    ensures { OfAll layout (take at buf.old) (λ ws. (result, buf.new) ≡ closed buf.old at ws) }
{
    let limit = most_in(buf.len());
    let end = closing_end(&buf[..at], layout, at, limit)?;
    put_closing(buf, at, layout);
    Ok(end)
}

// Reads back the unsigned part, which ends at `at`, and writes its blank credentials after it. Returns the offset just past them.
//
// A memo may have at most `most` bytes.
pub fn append(buf: &mut [u8], at: usize, most: u64) -> Result<usize, Refusal>
    ensures { (result, buf.new)
        ≡ written (closable (avm most) at buf.old) buf.old at (closing (avm most) at buf.old) }
{
    if buf.len() < at {
        return Err(wire::refuse(Rule::NoRoom, 0));
    }
    // With `map_err` and `?` the check found no proof by itself, and no answer for that form was tried.
    match checker::body::unsigned_at(&buf[..at], most) {
        Err(refusal) => Err(wire::without_place(refusal)),
        Ok(layout) => {
            if layout.credentials_at != at {
                return Err(wire::refuse(Rule::BytesAfterEnd, 0));
            }
            close_layout(buf, at, layout)
        }
    }
}
