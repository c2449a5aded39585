// What the writer asks of a plan: whether a field, a list or the finish is due.
#![tactic(auto)]

ghost use Rattle.std.specs.Prelude.{◌≡◌};
ghost use Rattle.transaction.specs.Plan.{plan_of};
ghost use Rattle.plan.specs.Due.{list_code, due, due_of, is_list, is_field, is_open, is_finish};

use plan::{Due, rows};
use transaction::{FieldName, ListName};

// Whether a list is due.
pub fn list_at(type_id: u32, phase: u32) -> bool
    ensures { result ≡ is_list (due_of (due phase (plan_of type_id))) }
{
    matches!(rows::due_at(type_id, phase), Due::List(_, _))
}

// Whether only the finish is due.
pub fn end_at(type_id: u32, phase: u32) -> bool
    ensures { result ≡ is_finish (due_of (due phase (plan_of type_id))) }
{
    matches!(rows::due_at(type_id, phase), Due::Finish)
}

// Lists that are written by the same step have the same code.
fn list_code(list: ListName) -> u32
    ensures { result ≡ list_code list }
{
    match list {
        ListName::Output => 0,
        ListName::Input => 1,
        ListName::State => 2,
        ListName::Operation => 3,
        ListName::Imported => 1,
        ListName::Exported => 0,
    }
}

// Whether this field is due.
pub fn field_at(type_id: u32, phase: u32, field: FieldName) -> bool
    ensures { result ≡ is_field field (due_of (due phase (plan_of type_id))) }
{
    matches!(rows::due_at(type_id, phase), Due::Field(name) if name == field)
}

// Whether this list, or another that is written by the same step, is due.
pub fn open_at(type_id: u32, phase: u32, list: ListName) -> bool
    ensures { result ≡ is_open list (due_of (due phase (plan_of type_id))) }
{
    matches!(rows::due_at(type_id, phase), Due::List(name, _) if list_code(list) == list_code(name))
}
