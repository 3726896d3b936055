//! The fields of the objects of each class (JVMS 2.7).

ghost use Rattle.std.specs.Prelude.{◌≡◌, ◌++◌, length, reverse, IfOk, OnOk};
ghost use Rattle.std.specs.List.{flat_map};
ghost use Rattle.std.specs.Option.{option_to_list};
ghost use Rattle.link_resolution.specs.Tables.{row_at, tabulate};
ghost use Rattle.link_model.specs.InstanceFields as spec;

use class_model::Member;
use items::{Items, NoMemory};
use link_numbers::MemberNumbers;
use link_resolution::{Hierarchy, is_static};
use std::alloc::Global;

// Adds the number of a field, unless it is static. Numbers from 2^32 on count as memory run out.
fn add_field(own: &mut Vec<u32>, first: u32, index: usize, field: &Member) -> Result<(), NoMemory>
    ensures { OnOk result (own.new.items ≡
        own.old.items ++ option_to_list (spec.own_field first (index, field.now))) }
{
    if is_static(field) {
        return Ok(());
    }
    let index = u32::try_from(index).map_err(|_| NoMemory)?;
    own.push(first.checked_add(index).ok_or(NoMemory)?)?;
    Ok(())
}

fn own_fields_from(alloc: Global, first: u32, fields: &[Member]) -> Result<Items<u32>, NoMemory>
    ensures { IfOk result (λ own. own ≡ spec.own_fields_from first fields.now) }
{
    let mut own = Vec::new(alloc);
    for (index, field) in fields.iter().enumerate() {
        add_field(&mut own, first, index, field)?;
    }
    Ok(Items::from(own))
}

fn all_own_fields(alloc: Global, members: &MemberNumbers) -> Result<Vec<Items<u32>>, NoMemory>
    ensures { IfOk result (λ v. v.items ≡
        tabulate (spec.own_fields members.now) (length members.now.classes)) }
{
    let mut all = Vec::new(alloc);
    for (class, file) in members.hierarchy().classes().files().iter().enumerate() {
        let first = members.first_field(class as u32)?;
        all.push(own_fields_from(alloc, first, &file.fields)?)?;
    }
    Ok(all)
}

/// The list of a class in a table; of one past its end none.
pub fn row_at(rows: &[Items<u32>], class: u32) -> &[u32]
    ensures { result.now ≡ row_at rows.now class }
{
    match rows.get(class as usize) {
        Some(row) => row.as_slice(),
        None => &[],
    }
}

// The rows of classes one after the other, from the last class on.
fn joined_rows(alloc: Global, rows: &[Items<u32>], classes: &[u32]) -> Result<Items<u32>, NoMemory>
    ensures { IfOk result (λ v. v ≡ flat_map (row_at rows.now) (reverse classes.now)) }
{
    let mut line = Vec::from_slice(alloc, classes)?;
    line.reverse();
    rows_of(alloc, rows, &line)
}

fn rows_of(alloc: Global, rows: &[Items<u32>], classes: &[u32]) -> Result<Items<u32>, NoMemory>
    ensures { IfOk result (λ v. v ≡ flat_map (row_at rows.now) classes.now) }
{
    let mut all = Vec::new(alloc);
    for class in classes {
        all.extend_from_slice(row_at(rows, *class))?;
    }
    Ok(Items::from(all))
}

/// The numbers of the fields of an object of each class, those of the superclasses first.
pub fn all_instance_fields(
    alloc: Global,
    members: &MemberNumbers,
) -> Result<Vec<Items<u32>>, NoMemory>
    ensures { IfOk result (λ v. v.items ≡
        tabulate (spec.instance_fields members.now) (length members.now.classes)) }
{
    let own = all_own_fields(alloc, members)?;
    let mut all = Vec::new(alloc);
    for class in 0..members.hierarchy().classes().count() {
        all.push(joined_rows(alloc, &own, members.hierarchy().superclasses(class))?)?;
    }
    Ok(all)
}
