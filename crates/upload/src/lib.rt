// An upload: a draft that is sent in pieces and kept in a lent store. Each call takes the upload's state and returns the next one.
//
// The check reads one slice, so a piece is judged where it is to be stored, and what it covers there is put aside on the stack: a piece takes 66,176
// bytes of stack, the end 576 (bench/stack.c).
#![tactic(auto)]

ghost use Rattle.std.specs.Prelude.{◌≡◌, ◌+◌, ◌≤◌, length};
ghost use Rattle.transaction.specs.Answer.{memo_most};
ghost use Rattle.upload.specs.Calls.{fresh, shown, laid, kept, judged, verdict, piece_call, end_call};

use transaction::Layout;
use wire::{Refusal, Rule};

// How many bytes are stored, at the front of the store, and what a piece is answered and stands from then on: nothing, so that more pieces are needed;
// or a refusal, which stays.
#[derive(Clone, Copy)]
pub struct Upload {
    pub stored: usize,
    pub standing: Option<Refusal>,
}

// The most bytes of a short piece.
const SHORT: usize = 1024;

// What the whole check's answer means for a piece: bytes that are accepted or cut short may have more behind them.
fn shown(answer: Result<(Layout, usize), Refusal>) -> Option<Refusal>
    ensures { result ≡ shown answer }
{
    let refusal = answer.err()?;
    match refusal.rule {
        Rule::CutShort => None,
        _ => Some(refusal),
    }
}

// Copies `from` into the store at offset `at`.
fn put_at(store: &mut [u8], at: usize, from: &[u8])
    requires { at + length from.now ≤ length store.old }
    ensures { store.new ≡ laid at from.now store.old }
{
    store[at..at + from.len()].copy_from_slice(from);
}

// Judges a piece where it is to be stored. `aside` has the piece's length: it takes what stood there, which is put back if the piece is refused.
fn judge(store: &mut [u8], at: usize, piece: &[u8], aside: &mut [u8], most: u64) -> Option<Refusal>
    requires piece_in_bounds { at + length piece.now ≤ length store.old }
    requires aside_len { length aside.old ≡ length piece.now }
    ensures { (result, store.new) ≡ judged most at piece.now store.old }
{
    let end = at + piece.len();
    aside.copy_from_slice(&store[at..end]);
    put_at(store, at, piece);
    let refusal = shown(checker::check::check_within(&store[..end], most));
    if refusal.is_some() {
        put_at(store, at, aside);
    }
    refusal
}

// What a piece of at most N bytes covers is put aside in an array of N bytes.
fn judge_within<const N: usize>(
    store: &mut [u8],
    at: usize,
    piece: &[u8],
    most: u64,
) -> Option<Refusal>
    requires piece_in_bounds { at + length piece.now ≤ length store.old }
    requires piece_len_bound { length piece.now ≤ N }
    requires array_bound { N ≤ 65536 }
    ensures { (result, store.new) ≡ judged most at piece.now store.old }
{
    let mut aside = [0u8; N];
    judge(store, at, piece, &mut aside[..piece.len()], most)
}

// Judges a piece where no refusal stands: room first, then the whole check of the bytes joined. More than 65,536 bytes are refused without a copy.
fn judge_any(store: &mut [u8], at: usize, piece: &[u8], most: u64) -> Option<Refusal>
    ensures { (result, store.new) ≡ kept (verdict most at piece.now store.old) at piece.now store.old }
{
    if store.len() < at || store.len() - at < piece.len() {
        return Some(wire::refuse(Rule::NoRoom, 0));
    }
    if transaction::MOST_BYTES < at + piece.len() {
        return Some(wire::refuse(Rule::TooLong, 0));
    }
    // a short array takes less time to clear
    if piece.len() <= SHORT {
        return judge_within::<SHORT>(store, at, piece, most);
    }
    judge_within::<{ transaction::MOST_BYTES }>(store, at, piece, most)
}

// Hands over a piece. A memo may have at most `most` bytes.
fn piece_within(upload: Upload, store: &mut [u8], piece: &[u8], most: u64) -> Upload
    ensures { (result, store.new) ≡ piece_call most upload store.old piece.now }
{
    if upload.standing.is_some() {
        return upload;
    }
    let stored = upload.stored;
    match judge_any(store, stored, piece, most) {
        None => Upload {
            stored: stored + piece.len(),
            standing: None,
        },
        Some(refusal) => Upload {
            stored,
            standing: Some(refusal),
        },
    }
}

// Checks the bytes stored, as a whole. A memo may have at most `most` bytes.
fn end_within(upload: Upload, store: &[u8], most: u64) -> Result<(Layout, usize), Refusal>
    ensures { result ≡ end_call most upload store.now }
{
    if let Some(refusal) = upload.standing {
        return Err(refusal);
    }
    if store.len() < upload.stored {
        return Err(wire::refuse(Rule::NoRoom, 0));
    }
    checker::check::check_within(&store[..upload.stored], most)
}

impl Upload {
    // A fresh start: nothing is stored, and no refusal stands.
    pub fn fresh() -> Upload
        ensures { result ≡ fresh }
    {
        Upload {
            stored: 0,
            standing: None,
        }
    }

    // Hands over a piece; what stands afterwards is its answer. It is stored behind the bytes that are there, unless a refusal stands or it is
    // refused: then no byte of the store changes, and the refusal stands until a fresh start.
    pub fn piece(self, store: &mut [u8], piece: &[u8]) -> Upload
        ensures { (result, store.new) ≡ piece_call memo_most self store.old piece.now }
    {
        piece_within(self, store, piece, transaction::MEMO_MOST)
    }

    // Ends the upload: the answer of the check of the bytes stored, or the refusal that stands.
    pub fn end(self, store: &[u8]) -> Result<(Layout, usize), Refusal>
        ensures { result ≡ end_call memo_most self store.now }
    {
        end_within(self, store, transaction::MEMO_MOST)
    }
}
