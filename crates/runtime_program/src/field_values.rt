//! The values of fields that nothing was stored in yet (JVMS 2.3, 2.4).

ghost use Rattle.std.specs.Prelude.{◌≡◌, length, IfOk};
ghost use Rattle.link_resolution.specs.Tables.{row_at, tabulate};
ghost use Rattle.ref_model.specs.Kinds as spec;
ghost use Rattle.ref_model.specs.Members as members;

use descriptors::{ElementType, Kind};
use instruction_rows::Value;
use items::{Items, NoMemory};
use link_tables::Tables;
use std::alloc::Global;

fn zero_of_element(element: &ElementType) -> Value
    ensures { result ≡ spec.zero_of_kind (spec.kind_of_element_type element.now) }
{
    match element {
        ElementType::Byte
        | ElementType::Char
        | ElementType::Short
        | ElementType::Bool
        | ElementType::Int => Value::Int(0),
        ElementType::Long => Value::Long(0),
        ElementType::Float | ElementType::Double | ElementType::Class(_) => Value::Null,
    }
}

/// The value that a field of this type has at first.
pub fn zero_of(kind: &Kind) -> Value
    ensures { result ≡ spec.zero_of kind.now }
{
    if kind.dimensions == 0 {
        zero_of_element(&kind.element)
    } else {
        Value::Null
    }
}

// The value that the field of a number has at first.
fn field_zero(tables: &Tables, n: u32) -> Value
    ensures { result ≡ members.field_zero tables.now n }
{
    match tables.field(n) {
        Some(field) => zero_of(&field.kind),
        None => Value::Null,
    }
}

// The values of a new object of a class (JVMS 6.5: new).
fn new_values(alloc: Global, tables: &Tables, class: u32) -> Result<Items<Value>, NoMemory>
    ensures { IfOk result (λ v. v ≡ members.new_values tables.now class) }
{
    let mut values = Vec::new(alloc);
    for n in tables.instance_fields(class) {
        values.push(field_zero(tables, *n))?;
    }
    Ok(Items::from(values))
}

/// The values of new objects of all classes.
pub(crate) fn all_new_values(alloc: Global, tables: &Tables) -> Result<Vec<Items<Value>>, NoMemory>
    ensures { IfOk result (λ v. v.items
        ≡ tabulate (members.new_values tables.now) (length tables.now.program.classes)) }
{
    let mut all = Vec::new(alloc);
    for class in 0..tables.hierarchy().classes().count() {
        all.push(new_values(alloc, tables, class)?)?;
    }
    Ok(all)
}

/// The values of a class in such a table; of one past its end none.
pub(crate) fn values_at(rows: &[Items<Value>], class: u32) -> &[Value]
    ensures { result.now ≡ row_at rows.now class }
{
    match rows.get(class as usize) {
        Some(row) => row.as_slice(),
        None => &[],
    }
}
