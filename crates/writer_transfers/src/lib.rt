// The rules for an output or input given as fields, in the order in which the reader judges its bytes.
//
// The head is the bytes before the addresses or indices. It is built once: to be compared, and to be stored by the step.
#![tactic(auto)]

ghost use Rattle.std.specs.Prelude.{◌≡◌, ◌+◌, ◌/◌, ◌%◌, ◌^◌, ◌≤◌, [], ◌++◌, length, take, Ok};
ghost use Rattle.wire.specs.Bytes.{digits, below};
ghost use Rattle.wire.specs.Fields.{blob};
ghost use Rattle.wire.specs.Series.{not_below};
ghost use Rattle.element.specs.Outputs.{transferable_output};
ghost use Rattle.element.specs.Inputs.{input};
ghost use Rattle.writer_rules.specs.Judged.{judged};
ghost use Rattle.writer_rules.specs.Given.{addresses_of, output_given, input_given};
ghost use Rattle.writer_rules.specs.code.Elements.{output_head, input_head, rising, each_above};

use std::cmp::Ordering;
use wire::{Refusal, Rule};

// Copies `from` into `room` at offset `at`.
fn put_bytes_after(room: &mut [u8], at: usize, from: &[u8])
    requires { at + length from.now ≤ length room.old }
    ensures { take (at + length from.now) room.new ≡ take at room.old ++ from.now }
{
    room[at..at + from.len()].copy_from_slice(from);
}

// Writes the lowest `width` bytes of `value` into `room` at offset `at`.
fn put_integer_after(room: &mut [u8], at: usize, width: usize, value: u64)
    requires { at + width ≤ length room.old }
    ensures { take (at + width) room.new ≡ take at room.old ++ digits width (value % 256 ^ width) }
{
    wire::put_integer(&mut room[at..at + width], value);
}

// The bytes of an output before its addresses. Only the lowest four bytes of their count are written.
fn output_head(asset: [u8; 32], amount: u64, locktime: u64, threshold: u32, count: u64) -> [u8; 60]
    ensures { result ≡ output_head asset amount locktime threshold (count % 256 ^ 4) }
{
    let mut head = [0u8; 60];
    put_bytes_after(&mut head, 0, &asset);
    put_integer_after(&mut head, 32, 4, 7);
    put_integer_after(&mut head, 36, 8, amount);
    put_integer_after(&mut head, 44, 8, locktime);
    put_integer_after(&mut head, 52, 4, threshold as u64);
    put_integer_after(&mut head, 56, 4, count);
    head
}

// The bytes of an input before its address indices. Only the lowest four bytes of their count are written.
fn input_head(txid: [u8; 32], index: u32, asset: [u8; 32], amount: u64, count: u64) -> [u8; 84]
    ensures { result ≡ input_head txid index asset amount (count % 256 ^ 4) }
{
    let mut head = [0u8; 84];
    put_bytes_after(&mut head, 0, &txid);
    put_integer_after(&mut head, 32, 4, index as u64);
    put_bytes_after(&mut head, 36, &asset);
    put_integer_after(&mut head, 68, 4, 5);
    put_integer_after(&mut head, 72, 8, amount);
    put_integer_after(&mut head, 80, 4, count);
    head
}

// Is each address strictly above the one before? Bytes after the last whole address are ignored.
fn addresses_rise(addresses: &[u8]) -> bool
    ensures { result ≡ each_above (blob 20) [] (addresses_of (length addresses.now / 20) addresses.now) }
{
    let count = addresses.len() / 20;
    owners::addresses_from(addresses, 0, count as u64).is_ok()
}

// Is `head` followed by `rest`, as one string, strictly below `prev`?
fn pieces_below(head: &[u8], rest: &[u8], prev: &[u8]) -> bool
    ensures { result ≡ below (head.now ++ rest.now) prev.now }
{
    match wire::order_of(head, wire::between(prev, 0, head.len())) {
        Ordering::Less => true,
        Ordering::Equal => wire::is_below(rest, wire::between(prev, head.len(), prev.len())),
        Ordering::Greater => false,
    }
}

// Is an output strictly below `prev`? A count of addresses that does not fit four bytes is above every count that does. Stores its head.
fn output_below(
    prev: &[u8],
    asset: [u8; 32],
    amount: u64,
    locktime: u64,
    threshold: u32,
    addresses: &[u8],
    head: &mut [u8; 60],
) -> bool
    ensures value { result ≡ below (output_head asset amount locktime threshold (length addresses.now / 20) ++ addresses.now)
        prev.now }
    ensures head_after { head.new ≡ output_head asset amount locktime threshold (length addresses.now / 20 % 256 ^ 4) }
{
    let count = (addresses.len() / 20) as u64;
    *head = output_head(asset, amount, locktime, threshold, count);
    if count > u32::MAX as u64 {
        return wire::is_below(wire::between(head, 0, 56), wire::between(prev, 0, 56));
    }
    pieces_below(head, addresses, prev)
}

// Judges an output that follows `prev`, the bytes of the output before it. Stores its head.
pub fn output_rules(
    prev: &[u8],
    asset: [u8; 32],
    amount: u64,
    locktime: u64,
    threshold: u32,
    addresses: &[u8],
    head: &mut [u8; 60],
) -> Result<(), Refusal>
    ensures value { result ≡ judged (not_below transferable_output prev.now)
        (output_given asset amount locktime threshold addresses.now) (Ok tt) }
    ensures head_after { head.new ≡ output_head asset amount locktime threshold (length addresses.now / 20 % 256 ^ 4) }
{
    let is_below = output_below(prev, asset, amount, locktime, threshold, addresses, head);
    if addresses.len() % 20 != 0 {
        return writer_rules::refuse_step(Rule::CutShort);
    }
    if amount == 0 {
        return writer_rules::refuse_step(Rule::ZeroAmount);
    }
    if !owners::threshold_fits(threshold as u64, (addresses.len() / 20) as u64) {
        return writer_rules::refuse_step(Rule::BadThreshold);
    }
    if !addresses_rise(addresses) || is_below {
        return writer_rules::refuse_step(Rule::OutOfOrder);
    }
    Ok(())
}

// Is each index strictly above the one before?
fn indices_rise(indices: &[u32]) -> bool
    ensures { result ≡ rising indices.now }
{
    indices.is_sorted_by(|a, b| a < b)
}

// Judges an input that follows `prev`, the bytes of the input before it. Stores its head, whose first 36 bytes are the key.
pub fn input_rules(
    prev: &[u8],
    txid: [u8; 32],
    index: u32,
    asset: [u8; 32],
    amount: u64,
    indices: &[u32],
    head: &mut [u8; 84],
) -> Result<(), Refusal>
    ensures value { result ≡ judged (input prev.now) (input_given txid index asset amount indices.now) (Ok tt) }
    ensures head_after { head.new ≡ input_head txid index asset amount (length indices.now % 256 ^ 4) }
{
    *head = input_head(txid, index, asset, amount, indices.len() as u64);
    if !wire::is_below(wire::between(prev, 0, 36), wire::between(head, 0, 36)) {
        return writer_rules::refuse_step(Rule::OutOfOrder);
    }
    if amount == 0 {
        return writer_rules::refuse_step(Rule::ZeroAmount);
    }
    if !indices_rise(indices) {
        return writer_rules::refuse_step(Rule::OutOfOrder);
    }
    Ok(())
}
