//! The names of classes as a program sees them (java.lang.Class.getName).

ghost use Rattle.std.specs.Prelude.{◌≡◌, ◌==◌, ◌∷◌, ◌++◌, [], codes, if◌then◌else◌, map, replicate, IfOk};
ghost use Rattle.ref_model.specs.Classes as spec;

use items::NoMemory;
use link_tables::Tables;
use stack_maps::Base;
use std::alloc::Global;

// The descriptor of a class.
fn class_letters(alloc: Global, name: &[u16]) -> Result<Vec<u16>, NoMemory>
    ensures { IfOk result (λ v. v.items ≡ codes "L" ++ name.now ++ codes ";") }
{
    let mut units = Vec::new(alloc);
    units.push(76)?;
    units.extend_from_slice(name)?;
    units.push(59)?;
    Ok(units)
}

fn letter(alloc: Global, unit: u16) -> Result<Vec<u16>, NoMemory>
    ensures { IfOk result (λ v. v.items ≡ unit ∷ []) }
{
    let mut units = Vec::new(alloc);
    units.push(unit)?;
    Ok(units)
}

// The descriptor of the last elements of an array.
fn base_letter(alloc: Global, tables: &Tables, base: Base) -> Result<Vec<u16>, NoMemory>
    ensures { IfOk result (λ v. v.items ≡ spec.base_letter tables.now base) }
{
    match base {
        Base::Class(class) => class_letters(alloc, tables.name(class)),
        Base::Bool => letter(alloc, 90),
        Base::Byte => letter(alloc, 66),
        Base::Char => letter(alloc, 67),
        Base::Short => letter(alloc, 83),
        Base::Int => letter(alloc, 73),
        Base::Long => letter(alloc, 74),
        Base::Float => letter(alloc, 70),
        Base::Double => letter(alloc, 68),
    }
}

// So many opening brackets before a text.
fn bracketed(alloc: Global, dimensions: u8, text: &[u16]) -> Result<Vec<u16>, NoMemory>
    ensures { IfOk result (λ v. v.items ≡ replicate dimensions 91 ++ text.now) }
{
    let mut units = Vec::new(alloc);
    units.resize(dimensions as usize, 91)?;
    units.extend_from_slice(text)?;
    Ok(units)
}

// The name of a class, or the descriptor of an array class.
fn slashed_name(alloc: Global, tables: &Tables, class: u32) -> Result<Vec<u16>, NoMemory>
    ensures { IfOk result (λ v. v.items ≡ spec.slashed_name tables.now class) }
{
    match tables.array_type(class) {
        None => Ok(Vec::from_slice(alloc, tables.name(class))?),
        Some(array) => {
            let letters = base_letter(alloc, tables, array.base)?;
            bracketed(alloc, array.dimensions, &letters)
        }
    }
}

fn dotted_unit(unit: u16) -> u16
    ensures { result ≡ (if unit == 47 then 46 else unit) }
{
    if unit == 47 { 46 } else { unit }
}

// A text with dots for slashes.
fn dotted(alloc: Global, text: &[u16]) -> Result<Vec<u16>, NoMemory>
    ensures { IfOk result (λ v. v.items ≡ map (λ u. if u == 47 then 46 else u) text.now) }
{
    let mut units = Vec::new(alloc);
    for unit in text {
        units.push(dotted_unit(*unit))?;
    }
    Ok(units)
}

/// The name of a class with dots, or the descriptor of an array class with dots.
pub(crate) fn class_name(alloc: Global, tables: &Tables, class: u32) -> Result<Vec<u16>, NoMemory>
    ensures { IfOk result (λ v. v.items ≡ spec.class_name tables.now class) }
{
    let slashed = slashed_name(alloc, tables, class)?;
    dotted(alloc, &slashed)
}
