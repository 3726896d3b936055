//! Where the values of fields lie (JVMS 2.5.1, 2.7).

ghost use Rattle.std.specs.Prelude.{◌≡◌, ◌+◌, ◌<◌, ◌^◌, ◌==◌, ℕ, None, Some, [], cond, filter, get_or, if◌then◌else◌, length, nat_eq, position, IfOk, OnOk};
ghost use Rattle.std.specs.Option.{option_or};
ghost use Rattle.link_model.specs.Fields.{declares, is_static_field};
ghost use Rattle.link_tables.specs.Places as spec;

use crate::instance_fields::row_at;
use crate::pc_tables::add_first;
use items::{Items, NoMemory};
use link_model::FieldInfo;
use std::alloc::Global;

// The place of a field, if it is static: the number of static fields before it.
fn static_place(field: &FieldInfo, before: u32) -> Option<u32>
    ensures { result ≡ spec.if_static field.now before }
{
    if field.is_static() {
        Some(before)
    } else {
        None
    }
}

// How many static fields come before the next field. Numbers from 2^32 on count as memory run out.
fn behind(field: &FieldInfo, before: u32) -> Result<u32, NoMemory>
    ensures { IfOk result (λ n. n ≡ before + cond (is_static_field field.now) 1 0) }
{
    if field.is_static() {
        return before.checked_add(1).ok_or(NoMemory);
    }
    Ok(before)
}

// The places of the static fields; no other field has one.
fn static_places(alloc: Global, fields: &[FieldInfo]) -> Result<Vec<Option<u32>>, NoMemory>
    ensures { IfOk result (λ v. (n : ℕ) →
        get_or v.items n None ≡ spec.static_at fields.now n) }
{
    let mut places = Vec::new(alloc);
    let mut before = 0u32;
    for field in fields {
        places.push(static_place(field, before))?;
        before = behind(field, before)?;
    }
    Ok(places)
}

// Whether the field of a number is an instance field that a class itself declares.
fn is_own(fields: &[FieldInfo], class: u32, n: u32) -> bool
    ensures { result ≡ spec.is_own fields.now class n }
{
    match fields.get(n as usize) {
        Some(field) => field.class == class && !field.is_static(),
        None => false,
    }
}

// Adds the place of an instance field, where the class itself declares it and it has none yet.
fn add_place(
    places: &mut Vec<Option<u32>>,
    fields: &[FieldInfo],
    class: u32,
    n: u32,
    place: usize,
) -> Result<(), NoMemory>
    ensures { OnOk result ((q : ℕ) → get_or places.new.items q None
        ≡ option_or (get_or places.old.items q None)
        (cond (spec.is_own fields.now class q) (cond (nat_eq n q) (Some place) None) None)) }
{
    if !is_own(fields, class, n) {
        return Ok(());
    }
    let place = u32::try_from(place).map_err(|_| NoMemory)?;
    add_first(places, n, place)
}

// Adds the places of the instance fields that a class itself declares, by the fields of its objects.
fn add_row(
    places: &mut Vec<Option<u32>>,
    fields: &[FieldInfo],
    class: u32,
    row: &[u32],
) -> Result<(), NoMemory>
    ensures { OnOk result ((q : ℕ) → get_or places.new.items q None
        ≡ option_or (get_or places.old.items q None)
        (cond (spec.is_own fields.now class q) (position (λ m. m == q) row.now) None)) }
{
    for (place, n) in row.iter().enumerate() {
        add_place(places, fields, class, *n, place)?;
    }
    Ok(())
}

// How many classes there are. Past 2^32 of them memory counts as run out.
fn count_of(rows: &[Items<u32>]) -> Result<u32, NoMemory>
    ensures { IfOk result (λ n. n ≡ length rows.now) }
{
    let count = u32::try_from(rows.len()).map_err(|_| NoMemory)?;
    Ok(count)
}

/// The places of the fields by their numbers, from the fields of the objects of each class.
pub fn all_places(
    alloc: Global,
    fields: &[FieldInfo],
    rows: &[Items<u32>],
) -> Result<Vec<Option<u32>>, NoMemory>
    ensures { IfOk result (λ v.
        (n : ℕ) → get_or v.items n None ≡ spec.place_by fields.now rows.now n) }
{
    let mut places = static_places(alloc, fields)?;
    let count = count_of(rows)?;
    for class in 0..count {
        add_row(&mut places, fields, class, row_at(rows, class))?;
    }
    Ok(places)
}

/// The place of a field by the table.
pub fn place_at(places: &[Option<u32>], n: u32) -> Option<u32>
    ensures { result ≡ get_or places.now n None }
{
    match places.get(n as usize) {
        Some(place) => *place,
        None => None,
    }
}
