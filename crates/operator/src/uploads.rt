// The calls of an upload. The state is two integers in a lent array: how many bytes are stored, and the refusal that stands as number × 2^32 + place, 0 if
// none does. Each call returns number × 2^32 + place.
ghost use Rattle.std.specs.Prelude.{◌≡◌};
ghost use Rattle.transaction.specs.Answer.{memo_most};
ghost use Rattle.upload.specs.Calls.{piece_call, end_call};
ghost use Rattle.operator.specs.Uploads.{rule_at, upload_of, refusal_word, standing_word, piece_word, end_word, sent, sent_piece};

use upload::Upload;
use wire::{Refusal, Rule};

// The rule of a refusal that stands. A number that no call leaves is read as 14.
#[tactic(auto, unfolding(crate::specs::Uploads::rule_at))]
fn rule_at(number: u64) -> Rule
    ensures { result ≡ rule_at number }
{
    match number {
        1 => Rule::TooLong,
        3 => Rule::WrongCodec,
        4 => Rule::UnknownType,
        5 => Rule::ZeroAmount,
        6 => Rule::OutOfOrder,
        7 => Rule::BadThreshold,
        8 => Rule::BadLength,
        9 => Rule::NotPrintable,
        10 => Rule::BadDenomination,
        11 => Rule::EmptyList,
        12 => Rule::WrongCount,
        13 => Rule::BytesAfterEnd,
        _ => Rule::NoRoom,
    }
}

fn upload_of(state: &[u64; 2]) -> Upload
    ensures { result ≡ upload_of state.now }
{
    let stored = state[0] as usize;
    let number = state[1] / 4294967296;
    if number == 0 {
        return Upload {
            stored,
            standing: None,
        };
    }
    let refusal = wire::refuse(rule_at(number), (state[1] % 4294967296) as usize);
    Upload {
        stored,
        standing: Some(refusal),
    }
}

// A refusal as number × 2^32 + place.
pub(crate) fn refusal_word(refusal: Refusal) -> u64
    ensures { result ≡ refusal_word refusal }
{
    u32::from(refusal.rule) as u64 * 4294967296 + (refusal.place % 4294967296) as u64
}

fn standing_word(standing: Option<Refusal>) -> u64
    ensures { result ≡ standing_word standing }
{
    match standing {
        None => 0,
        Some(refusal) => refusal_word(refusal),
    }
}

fn piece_word(standing: Option<Refusal>) -> u64
    ensures { result ≡ piece_word standing }
{
    refusal_word(standing.unwrap_or(wire::refuse(Rule::CutShort, 0)))
}

// Hands over a piece: stores it in `store` behind the bytes that are there, or refuses it and leaves `store` as it was.
pub fn cellfacet_upload_piece(state: &mut [u64; 2], store: &mut [u8], piece: &[u8]) -> u64
    ensures { sent result state.new store.new
        ≡ sent_piece (piece_call memo_most (upload_of state.old) store.old piece.now) }
{
    let next = upload_of(state).piece(store, piece);
    *state = [next.stored as u64, standing_word(next.standing)];
    piece_word(next.standing)
}

// Ends an upload: the answer of the check of the bytes stored, or the refusal that stands.
pub fn cellfacet_upload_end(state: &[u64; 2], store: &[u8]) -> u64
    ensures { result ≡ end_word (end_call memo_most (upload_of state.now) store.now) }
{
    match upload_of(state).end(store) {
        Ok((_, end)) => (end % 4294967296) as u64,
        Err(refusal) => refusal_word(refusal),
    }
}
