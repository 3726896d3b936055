//! The numbers of the Strings that constants are (JVMS 5.1).

ghost use Rattle.std.specs.Prelude.{◌≡◌, ◌+◌, ◌∷◌, ◌++◌, [], OnOk, IfOk};
ghost use Rattle.std.specs.List.{fold};
ghost use Rattle.link_model.specs.Numbering.{with_name};
ghost use Rattle.link_model.specs.Strings as spec;

use crate::names::Names;
use class_grammar::text_at;
use class_model::{ClassFile, Const};
use items::NoMemory;
use link_model::OBJECTS_BEFORE_STRINGS;
use link_resolution::Hierarchy;
use std::alloc::Global;

// Puts an ASCII text after all others.
fn push_ascii(alloc: Global, strings: &mut Names, text: &[u8]) -> Result<(), NoMemory>
    ensures { OnOk result (strings.new ≡ strings.old ++ text.now ∷ []) }
{
    let mut units = Vec::new(alloc);
    for byte in text {
        units.push(u16::from(*byte))?;
    }
    strings.push(alloc, &units)
}

// The names of main and of the states of a thread.
fn first_strings(alloc: Global) -> Result<Names, NoMemory>
    ensures { IfOk result (λ strings. strings ≡ spec.first_strings) }
{
    let mut strings = Names::new(alloc);
    push_ascii(alloc, &mut strings, b"main")?;
    push_ascii(alloc, &mut strings, b"NEW")?;
    push_ascii(alloc, &mut strings, b"RUNNABLE")?;
    push_ascii(alloc, &mut strings, b"BLOCKED")?;
    push_ascii(alloc, &mut strings, b"WAITING")?;
    push_ascii(alloc, &mut strings, b"TIMED_WAITING")?;
    push_ascii(alloc, &mut strings, b"TERMINATED")?;
    Ok(strings)
}

// The String of a constant.
fn add_string(
    alloc: Global,
    strings: &mut Names,
    pool: &[Const],
    constant: &Const,
) -> Result<(), NoMemory>
    ensures { OnOk result (strings.new ≡
        fold with_name strings.old (spec.text_in pool.now constant.now)) }
{
    let Const::Text(index) = constant else {
        return Ok(());
    };
    match text_at(pool, *index) {
        Some(text) => strings.add(alloc, text),
        None => Ok(()),
    }
}

fn add_strings(alloc: Global, strings: &mut Names, file: &ClassFile) -> Result<(), NoMemory>
    ensures { OnOk result (strings.new ≡
        fold with_name strings.old (spec.texts_in file.now)) }
{
    for constant in file.pool.iter() {
        add_string(alloc, strings, &file.pool, constant)?;
    }
    Ok(())
}

/// The texts of the Strings in the order of their numbers.
pub fn all_strings(alloc: Global, world: &Hierarchy) -> Result<Names, NoMemory>
    ensures { IfOk result (λ strings. strings ≡ spec.strings_of world.now) }
{
    let mut strings = first_strings(alloc)?;
    for file in world.classes().files() {
        add_strings(alloc, &mut strings, file)?;
    }
    Ok(strings)
}

/// The number of the String of a text. `None`: no constant has it. Numbers from 2^32 on count as memory run out.
pub fn string_number(strings: &Names, text: &[u16]) -> Result<Option<u32>, NoMemory>
    ensures { IfOk result (λ n. n ≡ spec.string_number strings.now text.now) }
{
    match strings.number(text) {
        Some(place) => Ok(Some(place.checked_add(OBJECTS_BEFORE_STRINGS).ok_or(NoMemory)?)),
        None => Ok(None),
    }
}
