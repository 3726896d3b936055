//! The parts of a class file, in their order (JVMS 4.1).

ghost use Rattle.std.specs.Prelude.{◌≡◌, ℕ, List, ◌++◌, length, OnOk, IfOk};
ghost use Rattle.class_grammar.specs.Layout as spec;
ghost use Rattle.class_grammar.specs.Ranges.{IsU2, IsInRange};
ghost use Rattle.class_grammar.specs.Grammar.{Spells, SpellsOnly};

use crate::attributes::attributes;
use crate::constants::pool;
use crate::members::members;
use crate::numbers::{u2, u4};
use class_model::ClassFile;
use items::NoMemory;
use std::alloc::Global;

/// The first bytes of every class file (JVMS 4.1).
const MAGIC: u32 = 0xcafe_babe;

// The parts before the flags.
fn head(out: &mut Vec<u8>, file: &ClassFile) -> Result<(), NoMemory>
    requires { IsInRange file.now }
    ensures { OnOk result (out.new.items ≡ out.old.items ++ spec.head file.now) }
{
    u4(out, MAGIC)?;
    u2(out, file.minor)?;
    u2(out, file.major)?;
    pool(out, &file.pool)
}

fn indices(out: &mut Vec<u8>, table: &[u16]) -> Result<(), NoMemory>
    requires { IsU2 (length table.now) }
    ensures { OnOk result (out.new.items ≡ out.old.items ++ spec.table spec.u2 table.now) }
{
    u2(out, table.len() as u16)?;
    for index in table {
        u2(out, *index)?;
    }
    Ok(())
}

// The class itself: its flags, its this_class, its super_class and its interfaces.
fn class(out: &mut Vec<u8>, file: &ClassFile) -> Result<(), NoMemory>
    requires { IsInRange file.now }
    ensures { OnOk result (out.new.items ≡ out.old.items ++ spec.u2 file.now.flags
        ++ spec.u2 file.now.own ++ spec.u2 file.now.parent
        ++ spec.table spec.u2 file.now.interfaces) }
{
    u2(out, file.flags)?;
    u2(out, file.own)?;
    u2(out, file.parent)?;
    indices(out, &file.interfaces)
}

/// The bytes of a class file (JVMS 4.1 to 4.9).
pub fn write(alloc: Global, file: &ClassFile) -> Result<Vec<u8>, NoMemory>
    requires { (bytes : List ℕ) × Spells bytes file.now }
    // The bytes spell this value and no other, so `class_file::read` gives it back.
    ensures read_back { IfOk result (λ v. SpellsOnly v.items file.now) }
{
    whole(alloc, file)
}

// The parts of the file. The clause of `write` follows from this one: the layout of a value has no other value.
fn whole(alloc: Global, file: &ClassFile) -> Result<Vec<u8>, NoMemory>
    requires { IsInRange file.now }
    ensures { IfOk result (λ v. v.items ≡ spec.class_file file.now) }
{
    let mut out = Vec::new(alloc);
    head(&mut out, file)?;
    class(&mut out, file)?;
    members(&mut out, &file.fields)?;
    members(&mut out, &file.methods)?;
    attributes(&mut out, &file.attributes)?;
    Ok(out)
}
