//! The names of classes as text (java.lang.Class.getName).

ghost use Rattle.std.specs.Prelude.{◌≡◌, ◌++◌, ◌==◌, ◌∷◌, [], if◌then◌else◌, IfOk, OnOk};
ghost use Rattle.ref_model.specs.Classes as spec;

use crate::world::NativeWorld;
use items::NoMemory;
use stack_maps::Base;
use std::alloc::Global;

// Appends a letter.
fn push_letter(name: &mut Vec<u16>, letter: u8) -> Result<(), NoMemory>
    ensures { OnOk result (name.new.items ≡ name.old.items ++ letter ∷ []) }
{
    Ok(name.push(u16::from(letter))?)
}

// Appends the descriptor of a class.
fn push_class<W: NativeWorld>(world: &W, name: &mut Vec<u16>, class: u32) -> Result<(), NoMemory>
    ensures { OnOk result (name.new.items
        ≡ name.old.items ++ spec.base_letter (W.world world.now) (Base.Class class)) }
{
    push_letter(name, b'L')?;
    name.extend_from_slice(world.name(class))?;
    push_letter(name, b';')
}

// Appends the descriptor of the last elements of an array (JVMS 4.3.2).
fn push_base<W: NativeWorld>(world: &W, name: &mut Vec<u16>, base: Base) -> Result<(), NoMemory>
    ensures { OnOk result
        (name.new.items ≡ name.old.items ++ spec.base_letter (W.world world.now) base) }
{
    match base {
        Base::Class(class) => push_class(world, name, class),
        Base::Bool => push_letter(name, b'Z'),
        Base::Byte => push_letter(name, b'B'),
        Base::Char => push_letter(name, b'C'),
        Base::Short => push_letter(name, b'S'),
        Base::Int => push_letter(name, b'I'),
        Base::Long => push_letter(name, b'J'),
        Base::Float => push_letter(name, b'F'),
        Base::Double => push_letter(name, b'D'),
    }
}

// The name of a class, or the descriptor of an array class.
fn slashed_name<W: NativeWorld>(alloc: Global, world: &W, class: u32) -> Result<Vec<u16>, NoMemory>
    ensures { IfOk result (λ name.
        name.items ≡ spec.slashed_name (W.world world.now) class) }
{
    let Some(array) = world.array_type(class) else {
        return Ok(Vec::from_slice(alloc, world.name(class))?);
    };
    let mut name = vec![in alloc; 91; usize::from(array.dimensions)]?;
    push_base(world, &mut name, array.base)?;
    Ok(name)
}

// A dot for a slash.
fn dotted(unit: u16) -> u16
    ensures { result ≡ (if unit == 47 then 46 else unit) }
{
    if unit == 47 { 46 } else { unit }
}

/// The name of a class, or the descriptor of an array class, with dots.
pub(crate) fn class_name<W: NativeWorld>(
    alloc: Global,
    world: &W,
    class: u32,
) -> Result<Vec<u16>, NoMemory>
    ensures { IfOk result (λ name.
        name.items ≡ spec.class_name (W.world world.now) class) }
{
    let name = slashed_name(alloc, world, class)?;
    Ok(name.iter().map(|unit| dotted(*unit)).collect(alloc)?)
}
