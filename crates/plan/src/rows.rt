// The rows of the transaction types: their numbers and what is due at each phase; and what each name of a field or list stands for. A new field is a
// name here, a new type a row.
ghost use Rattle.std.specs.Prelude.{◌≡◌};
ghost use Rattle.wire.specs.Series.{series};
ghost use Rattle.wire.specs.code.Answer.{ended};
ghost use Rattle.transaction.specs.Plan.{content_of, field_credential, elements_of, own_plan, type_of, is_type, plan_of};
ghost use Rattle.transaction.specs.declared.TransactionType.TheVariants as K;
ghost use Rattle.plan.specs.Due.{after, due, due_of};
ghost use Rattle.plan.specs.code.Rows.{ElementsPast, AskingTells, credential_asked, entry_of, FieldPast, FieldSigns, silent_of, ElementTells};

use crate::Due;
use transaction::{FieldName, ListName};
use wire::Refusal;

// The credential's type of what asks for none. It stays a number, as in `Wanting` and `Wanted`, since `asking_past` and `next_wanted` answer for every
// number.
const NO_CREDENTIAL: u64 = 0;

// ---- the rows

// Whether `number` is the number of a type: one number for each type, in the order of `types`. Numbers may have gaps.
pub fn is_type(number: u64) -> bool
    ensures { result ≡ is_type number }
{
    matches!(number, 0 | 1 | 2 | 3 | 4)
}

// A function for each row: two that differ in a name only do so by chance.
fn base_due(begun: u32) -> Due
    ensures { result ≡ due_of (after begun (own_plan K.Base)) }
{
    match begun {
        0 => Due::Finish,
        _ => Due::Nothing,
    }
}

fn asset_due(begun: u32) -> Due
    ensures { result ≡ due_of (after begun (own_plan K.CreateAsset)) }
{
    match begun {
        0 => Due::Field(FieldName::Name),
        1 => Due::Field(FieldName::Symbol),
        2 => Due::Field(FieldName::Denomination),
        3 => Due::List(ListName::State, 1),
        4 => Due::Finish,
        _ => Due::Nothing,
    }
}

fn operation_due(begun: u32) -> Due
    ensures { result ≡ due_of (after begun (own_plan K.Operation)) }
{
    match begun {
        0 => Due::List(ListName::Operation, 1),
        1 => Due::Finish,
        _ => Due::Nothing,
    }
}

fn import_due(begun: u32) -> Due
    ensures { result ≡ due_of (after begun (own_plan K.Import)) }
{
    match begun {
        0 => Due::Field(FieldName::Chain),
        1 => Due::List(ListName::Imported, 1),
        2 => Due::Finish,
        _ => Due::Nothing,
    }
}

fn export_due(begun: u32) -> Due
    ensures { result ≡ due_of (after begun (own_plan K.Export)) }
{
    match begun {
        0 => Due::Field(FieldName::Chain),
        1 => Due::List(ListName::Exported, 1),
        2 => Due::Finish,
        _ => Due::Nothing,
    }
}

// What is due after the memo, past the first `begun` segments there, in the order of `type_of`. Any other number counts as the last type: here and in
// the crates above a type stays a number, since the writer's steps promise an answer for each number that a state may hold.
fn own_due(type_id: u32, begun: u32) -> Due
    ensures { result ≡ due_of (after begun (own_plan (type_of type_id))) }
{
    match type_id {
        0 => base_due(begun),
        1 => asset_due(begun),
        2 => operation_due(begun),
        3 => import_due(begun),
        _ => export_due(begun),
    }
}

pub fn due_at(type_id: u32, phase: u32) -> Due
    ensures { result ≡ due_of (due phase (plan_of type_id)) }
{
    match phase {
        0 => Due::Nothing,
        1 => Due::List(ListName::Output, 0),
        2 => Due::List(ListName::Input, 0),
        3 => Due::Field(FieldName::Memo),
        _ => own_due(type_id, phase - 4),
    }
}

// ---- fields, by their names

// The offset just past a field; a memo has at most `most` bytes.
pub fn field_end(s: &[u8], at: usize, field: FieldName, most: u64) -> Result<usize, Refusal>
    ensures { result ≡ ended (content_of most field) s.now at }
{
    match field {
        FieldName::Memo => string::string_at(s, at, most),
        FieldName::Name => string::text_at(s, at, string::NAME_MOST),
        FieldName::Symbol => string::text_at(s, at, string::SYMBOL_MOST),
        FieldName::Denomination => string::denomination_at(s, at),
        FieldName::Chain => wire::field_at(s, at, 32),
    }
}

// The type of the credential that a field asks for, or 0 if it asks for none.
pub fn field_credential(field: FieldName) -> u64
    ensures { result ≡ credential_asked (field_credential field) }
{
    match field {
        FieldName::Memo
        | FieldName::Name
        | FieldName::Symbol
        | FieldName::Denomination
        | FieldName::Chain => NO_CREDENTIAL,
    }
}

// The offset just past a field that was read, by its length.
pub fn field_past(s: &[u8], at: usize, field: FieldName) -> usize
    ensures { FieldPast field s.now at result }
{
    match field {
        FieldName::Memo => string::string_past(s, at).unwrap_or(at),
        FieldName::Name | FieldName::Symbol => string::text_past(s, at).unwrap_or(at),
        FieldName::Denomination => wire::field_at(s, at, 1).unwrap_or(at),
        FieldName::Chain => wire::field_at(s, at, 32).unwrap_or(at),
    }
}

// The number of signatures that a field that was read asks for.
pub fn field_signatures(s: &[u8], at: usize, field: FieldName) -> u64
    ensures { FieldSigns field s.now at result }
{
    match field {
        FieldName::Memo
        | FieldName::Name
        | FieldName::Symbol
        | FieldName::Denomination
        | FieldName::Chain => 0,
    }
}

// ---- lists, by their names

// The offset just past `count` elements.
pub fn elements_from(s: &[u8], first: usize, count: u64, list: ListName) -> Result<usize, Refusal>
    ensures { result ≡ ended (series (elements_of list).element count) s.now first }
{
    match list {
        ListName::Output | ListName::Exported => element::outputs::outputs_from(s, first, count),
        ListName::Input | ListName::Imported => element::inputs::inputs_from(s, first, count),
        ListName::State => element::operations::states_from(s, first, count),
        ListName::Operation => element::operations::operations_from(s, first, count),
    }
}

// The type of the credential that each element asks for, or 0 if it asks for none.
pub fn credential_of(list: ListName) -> u64
    ensures { result ≡ credential_asked (elements_of list).credential }
{
    match list {
        ListName::Output | ListName::State | ListName::Exported => NO_CREDENTIAL,
        ListName::Input | ListName::Imported => transaction::SECP_CREDENTIAL,
        ListName::Operation => transaction::NFT_CREDENTIAL,
    }
}

// The answer for an element that asks for no signatures.
fn silent(read: Result<usize, Refusal>) -> Result<(u64, usize), Refusal>
    ensures { result ≡ silent_of read }
{
    read.map(|next| (0, next))
}

// The number of signatures that an element that was read asks for, and the offset just past it, by its lengths.
pub fn element_past(s: &[u8], at: usize, list: ListName) -> Result<(u64, usize), Refusal>
    ensures { ElementTells list s.now at result }
{
    match list {
        ListName::Output | ListName::Exported => silent(element_lengths::transferable_past(s, at)),
        ListName::Input | ListName::Imported => element_lengths::input_past(s, at),
        ListName::State => silent(element_lengths::state_past(s, at)),
        ListName::Operation => element_lengths::operation_past(s, at),
    }
}

// The offset just past `count` elements that were read.
pub fn elements_past(s: &[u8], first: usize, count: u64, list: ListName) -> Result<usize, Refusal>
    ensures { ElementsPast list count s.now first result }
{
    let mut at = first;
    for _ in 0..count {
        at = element_past(s, at, list)?.1;
    }
    Ok(at)
}

// As `element_past`, for an element of any list that asks for a credential of this type.
pub fn asking_past(s: &[u8], at: usize, credential: u64) -> Result<(u64, usize), Refusal>
    ensures { AskingTells credential s.now at result }
{
    if credential == transaction::NFT_CREDENTIAL {
        return element_lengths::operation_past(s, at);
    }
    element_lengths::input_past(s, at)
}

// The kind of an element's entry. An initial state is no entry: this is the kind of its outputs.
pub fn entry_of(list: ListName) -> u32
    ensures { result ≡ entry_of list }
{
    match list {
        ListName::Output => 1,
        ListName::Input => 2,
        ListName::State => 6,
        ListName::Operation => 3,
        ListName::Imported => 4,
        ListName::Exported => 5,
    }
}
