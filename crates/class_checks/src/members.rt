//! Fields and methods with their attributes (JVMS 4.5, 4.6, 4.7).

ghost use Rattle.std.specs.Prelude.{◌≡◌};
ghost use Rattle.std.specs.List.{flat_map, list_any};
ghost use Rattle.class_grammar.specs.Checks as checks;
ghost use Rattle.class_grammar.specs.Checks.{left_after, field_items, method_items, attribute_items, attributes_items};

use crate::code::check_code;
use crate::pool::{Pool, unless};
use crate::sizes::check_numbers;
use class_grammar::{ClassFault, ClassWhy};
use class_model::{ACC_ABSTRACT, ACC_NATIVE, Attribute, Body, Member};

/// Goes over fields (JVMS 4.5).
pub fn check_fields(pool: &Pool, left: usize, members: &[Member]) -> Result<usize, ClassFault>
    ensures { result ≡ left_after left (flat_map (field_items pool.now) members.now) }
{
    let mut left = left;
    for member in members {
        left = check_field(pool, left, member)?;
    }
    Ok(left)
}

fn check_field(pool: &Pool, left: usize, field: &Member) -> Result<usize, ClassFault>
    ensures { result ≡ left_after left (field_items pool.now field.now) }
{
    let faults = [
        pool.field_name_fault(field.name),
        pool.field_descriptor_fault(field.descriptor),
    ];
    let left = check_numbers(left.saturating_sub(2), &faults)?;
    check_attributes(pool, left, field)
}

/// Goes over methods (JVMS 4.6).
pub fn check_methods(pool: &Pool, left: usize, members: &[Member]) -> Result<usize, ClassFault>
    ensures { result ≡ left_after left (flat_map (method_items pool.now) members.now) }
{
    let mut left = left;
    for member in members {
        left = check_method(pool, left, member)?;
    }
    Ok(left)
}

fn check_method(pool: &Pool, left: usize, method: &Member) -> Result<usize, ClassFault>
    ensures { result ≡ left_after left (method_items pool.now method.now) }
{
    let faults = [
        code_fault(method),
        pool.method_name_fault(method.name),
        pool.method_descriptor_fault(method.descriptor),
    ];
    let left = check_numbers(left, &faults)?;
    check_attributes(pool, left, method)
}

// A method has code where it is neither abstract nor native, and only there (JVMS 4.7.3).
fn code_fault(method: &Member) -> Option<ClassWhy>
    ensures { result ≡ checks.code_fault method.now }
{
    let passed = if method.flags & (ACC_NATIVE | ACC_ABSTRACT) == 0 {
        has_code(&method.attributes)
    } else {
        !has_code(&method.attributes)
    };
    unless(passed, ClassWhy::Code)
}

fn has_code(attributes: &[Attribute]) -> bool
    ensures { result ≡ list_any checks.is_code attributes.now }
{
    for attribute in attributes {
        if let Body::Code(_) = &attribute.body {
            return true;
        }
    }
    false
}

// The attributes of a field or a method.
fn check_attributes(pool: &Pool, left: usize, member: &Member) -> Result<usize, ClassFault>
    ensures { result ≡ left_after left (attributes_items pool.now member.now) }
{
    let mut left = left.saturating_sub(2);
    for attribute in member.attributes.as_slice() {
        left = check_attribute(pool, left, member, attribute)?;
    }
    Ok(left)
}

fn check_attribute(
    pool: &Pool,
    left: usize,
    member: &Member,
    attribute: &Attribute,
) -> Result<usize, ClassFault>
    ensures { result ≡ left_after left (attribute_items pool.now member.now attribute.now) }
{
    let left = left.saturating_sub(6);
    match &attribute.body {
        Body::Code(body) => check_code(pool, left, body.get()),
        Body::Constant(value) => check_numbers(left, &[pool.value_fault(member, *value)]),
        Body::Other(bytes) => Ok(left.saturating_sub(bytes.len())),
    }
}
