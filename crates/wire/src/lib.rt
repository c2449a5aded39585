// Fields at an offset of a byte string: a fixed number of bytes, a big-endian integer, an identifier or an address returned by value. Also the order
// of byte strings, and storing integers and bytes into a buffer.
#![tactic(auto)]

ghost use Rattle.std.specs.Prelude.{◌≡◌, ◌-◌, ◌%◌, ◌^◌, ◌≤◌, ◌<◌, ◌++◌, length, take, drop, leb};
ghost use Rattle.wire.specs.Bytes.{between, value, digits, below};
ghost use Rattle.wire.specs.Numbers.{rule_number, refusal, cut_at};
ghost use Rattle.wire.specs.Fields.{blob, integer};
ghost use Rattle.wire.specs.code.Order.{order, key_below};
ghost use Rattle.wire.specs.code.Answer.{ended, valued, whole_at};

use std::cmp::Ordering;

// The rules by which the desk refuses, with their numbers in its table.
#[derive(Clone, Copy, Debug, PartialEq, Eq)]
pub enum Rule {
    TooLong = 1,
    CutShort = 2,
    WrongCodec = 3,
    UnknownType = 4,
    ZeroAmount = 5,
    OutOfOrder = 6,
    BadThreshold = 7,
    BadLength = 8,
    NotPrintable = 9,
    BadDenomination = 10,
    EmptyList = 11,
    WrongCount = 12,
    BytesAfterEnd = 13,
    NoRoom = 14,
    NoEntry = 15,
    StepNotDue = 16,
    FirstNotAccepted = 17,
    SecondNotAccepted = 18,
    DraftsDiffer = 19,
    Conflict = 20,
    NotASignature = 21,
}

// Why a parse or a request ends: the rule that is broken, and the place. `place` comes first to line up with the offset of an `Ok`: in the other
// order the compiler moves the answer byte by byte.
#[derive(Clone, Copy, Debug, PartialEq, Eq)]
pub struct Refusal {
    pub place: usize,
    pub rule: Rule,
}

// The number of a rule in the desk's table.
impl From<Rule> for u32 {
    ghost from_gives = { λ rule number. number ≡ rule_number rule };

    fn from(rule: Rule) -> u32 {
        rule as u32
    }
}

// Makes a refusal. Every refusal is made here, so that each names a rule of the table.
pub fn refuse(rule: Rule, place: usize) -> Refusal
    ensures { result ≡ refusal rule place }
{
    Refusal { place, rule }
}

// The same rule at place 0, for a refusal that has no place in the bytes.
pub fn without_place(refused: Refusal) -> Refusal
    ensures { result ≡ refusal refused.rule 0 }
{
    let rule = refused.rule;
    refuse(rule, 0)
}

// The refusal of a field that is cut short: from `at` on there are fewer than `width` bytes.
pub fn cut(s: &[u8], at: usize, width: usize) -> Refusal
    ensures { result ≡ cut_at width s.now at }
{
    refuse(Rule::CutShort, at)
}

// Whether there are `width` bytes from `at` on. If `width` is 0 there are, at any offset. `width` is compared with the whole length first: the
// compiler knows `width`, so for consecutive fields it makes that test once.
fn are_there(s: &[u8], at: usize, width: usize) -> bool
    ensures { result ≡ leb width (length s.now - at) }
{
    if s.len() < width {
        return false;
    }
    if s.len() - width < at {
        return width == 0;
    }
    true
}

// A field of `width` bytes.
pub fn field_at(s: &[u8], at: usize, width: usize) -> Result<usize, Refusal>
    ensures { result ≡ ended (blob width) s.now at }
{
    if are_there(s, at, width) {
        return Ok(at + width);
    }
    Err(cut(s, at, width))
}

// The integer in `width` bytes, all of which are there.
fn value_at(s: &[u8], at: usize, width: usize) -> u64
    requires { (width ≤ 8) × (width ≤ length s.now - at) }
    ensures { result ≡ value (take width (drop at s.now)) }
{
    let mut total: u64 = 0;
    for i in 0..width {
        let byte = s[at + i] as u64;
        total = total * 256 + byte;
    }
    total
}

// An integer of any width that fits a u64.
fn integer_at(s: &[u8], at: usize, width: usize) -> Result<(u64, usize), Refusal>
    requires { width ≤ 8 }
    ensures { result ≡ valued (integer width) s.now at }
{
    if are_there(s, at, width) {
        return Ok((value_at(s, at, width), at + width));
    }
    Err(cut(s, at, width))
}

// The format's four widths by their names: one function with a const width would have to ask that it is at most 8, and no public function asks.
pub fn u8_at(s: &[u8], at: usize) -> Result<(u64, usize), Refusal>
    ensures { result ≡ valued (integer 1) s.now at }
{
    integer_at(s, at, 1)
}

pub fn u16_at(s: &[u8], at: usize) -> Result<(u64, usize), Refusal>
    ensures { result ≡ valued (integer 2) s.now at }
{
    integer_at(s, at, 2)
}

pub fn u32_at(s: &[u8], at: usize) -> Result<(u64, usize), Refusal>
    ensures { result ≡ valued (integer 4) s.now at }
{
    integer_at(s, at, 4)
}

pub fn u64_at(s: &[u8], at: usize) -> Result<(u64, usize), Refusal>
    ensures { result ≡ valued (integer 8) s.now at }
{
    integer_at(s, at, 8)
}

// The bytes from `start` up to `end`, as far as they are there.
pub fn between(s: &[u8], start: usize, end: usize) -> &[u8]
    ensures { result.now ≡ between start end s.now }
{
    if s.len() < start {
        return &s[..0];
    }
    if end < start {
        return &s[..0];
    }
    if s.len() < end {
        return &s[start..];
    }
    &s[start..end]
}

// Copies the start of `from` to the start of `room`, as many bytes as both have.
pub fn put_bytes(room: &mut [u8], from: &[u8])
    ensures { room.new ≡ take (length room.old) from.now ++ drop (length from.now) room.old }
{
    if from.len() <= room.len() {
        room[..from.len()].copy_from_slice(from);
        return;
    }
    room.copy_from_slice(&from[..room.len()]);
}

// The `N` bytes of an identifier or an address, or zeros if they are not all there.
pub fn array_at<const N: usize>(s: &[u8], at: usize) -> [u8; N]
    ensures { result ≡ whole_at N s.now at }
{
    let Some(rest) = s.get(at..) else {
        return [0u8; N];
    };
    match rest.first_chunk() {
        Some(field) => *field,
        None => [0u8; N],
    }
}

// Compares two byte strings three ways. Inlined, since the compiler knows the length of most of them.
#[inline(always)]
pub fn order_of(a: &[u8], b: &[u8]) -> Ordering
    ensures { result ≡ order a.now b.now }
{
    a.cmp(b)
}

// How many bytes `is_below` compares one by one. Neighbours in a list often differ there, and the library's `cmp` finds that later.
const NEAR: usize = 8;

// Separate from `is_below`, which is inlined: few strings are compared beyond the bytes near their starts.
#[inline(never)]
fn far_below(a: &[u8], b: &[u8]) -> bool
    ensures { result ≡ below a.now b.now }
{
    order_of(a, b).is_lt()
}

// Whether `a` is strictly below `b`.
#[inline(always)]
pub fn is_below(a: &[u8], b: &[u8]) -> bool
    ensures { result ≡ below a.now b.now }
{
    for i in 0..a.len().min(b.len()).min(NEAR) {
        if a[i] != b[i] {
            return a[i] < b[i];
        }
    }
    far_below(a, b)
}

// Whether, of the adjacent byte ranges from `start` up to `middle` and from `middle` up to `end`, the second is strictly below the first.
#[inline(always)]
pub fn next_below(s: &[u8], start: usize, middle: usize, end: usize) -> bool
    ensures { result ≡ below (between middle end s.now) (between start middle s.now) }
{
    if s.len() < end {
        return far_below(between(s, middle, end), between(s, start, middle));
    }
    if end < middle {
        return far_below(between(s, middle, end), between(s, start, middle));
    }
    if middle < start {
        return far_below(between(s, middle, end), between(s, start, middle));
    }
    is_below(&s[middle..end], &s[start..middle])
}

pub fn address_below(a: [u8; 20], b: [u8; 20]) -> bool
    ensures { result ≡ below a b }
{
    order_of(&a, &b).is_lt()
}

// Compares keys by identifier, then by index. Inlined, since keys that are passed are copied.
#[inline(always)]
pub fn key_below(a: [u8; 32], a_index: u64, b: [u8; 32], b_index: u64) -> bool
    ensures { result ≡ key_below a a_index b b_index }
{
    match order_of(&a, &b) {
        Ordering::Less => true,
        Ordering::Equal => a_index < b_index,
        Ordering::Greater => false,
    }
}

// Fills `room` with the lowest bytes of `value`, most significant first.
pub fn put_integer(room: &mut [u8], value: u64)
    ensures { room.new ≡ digits (length room.old) (value % 256 ^ length room.old) }
{
    let mut rest = value;
    for i in (0..room.len()).rev() {
        room[i] = (rest % 256) as u8;
        rest /= 256;
    }
}
