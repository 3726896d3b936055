//! Which instruction begins at each pc of a method (JVMS 4.7.3).

ghost use Rattle.std.specs.Prelude.{◌≡◌, ◌<◌, ◌^◌, ℕ, None, Some, [], cond, get_or, length, nat_eq, vec_len, IfOk, OnOk};
ghost use Rattle.std.specs.Option.{option_or};
ghost use Rattle.link_tables.specs.PcTables as spec;
ghost use Rattle.link_tables.specs.PcTables.{AreByPc, IsByPc};

use items::{Items, NoMemory};
use link_model::MethodCode;
use link_numbers::instrs_in;
use opcodes::Instr;
use std::alloc::Global;

// Adds empty entries, up to that of a pc.
fn reach(table: &mut Vec<Option<u32>>, pc: u32) -> Result<(), NoMemory>
    ensures long_enough { OnOk result (pc < vec_len table.new) }
    ensures same { (q : ℕ) → get_or table.new.items q None ≡ get_or table.old.items q None }
{
    if table.len() <= pc as usize {
        table.resize(pc as usize + 1, None)?;
    }
    Ok(())
}

/// Adds an entry to a table, unless it has one there.
pub fn add_first(table: &mut Vec<Option<u32>>, pc: u32, index: u32) -> Result<(), NoMemory>
    ensures { OnOk result ((q : ℕ) → get_or table.new.items q None
        ≡ option_or (get_or table.old.items q None) (cond (nat_eq pc q) (Some index) None)) }
{
    reach(table, pc)?;
    if table[pc as usize].is_some() {
        return Ok(());
    }
    table[pc as usize] = Some(index);
    Ok(())
}

/// In place of an index, where no instruction begins.
const NONE: u16 = 0xffff;

// The index that a table has in two bytes. `None`: it is `NONE`.
fn some_index(stored: u16) -> Option<u32>
    ensures { result ≡ spec.some_index stored }
{
    if stored == NONE {
        None
    } else {
        Some(u32::from(stored))
    }
}

// Adds empty entries, up to that of a pc.
fn reach_pc(table: &mut Vec<u16>, pc: u32) -> Result<(), NoMemory>
    ensures long_enough { OnOk result (pc < vec_len table.new) }
    ensures same { (q : ℕ) → get_or table.new.items q 65535 ≡ get_or table.old.items q 65535 }
{
    if table.len() <= pc as usize {
        table.resize(pc as usize + 1, NONE)?;
    }
    Ok(())
}

// Adds the index of an instruction to a table, unless it has one at the pc.
fn add_index(table: &mut Vec<u16>, pc: u32, index: u16) -> Result<(), NoMemory>
    requires { index < 65535 }
    ensures { OnOk result ((q : ℕ) → spec.stored_index table.new.items q
        ≡ option_or (spec.stored_index table.old.items q) (cond (nat_eq pc q) (Some index) None)) }
{
    reach_pc(table, pc)?;
    if table[pc as usize] != NONE {
        return Ok(());
    }
    table[pc as usize] = index;
    Ok(())
}

// How many pcs a table of these instructions has.
fn pc_count(instrs: &[Instr]) -> usize {
    match instrs.last() {
        Some(last) => (last.pc as usize).saturating_add(1),
        None => 0,
    }
}

// The indices of instructions by their pcs. Past 65,535 instructions, which is more than a code has, memory counts as run out.
fn by_pc(alloc: Global, instrs: &[Instr]) -> Result<Items<u16>, NoMemory>
    ensures { IfOk result (λ table. IsByPc instrs.now table) }
{
    if instrs.len() > usize::from(NONE) {
        return Err(NoMemory);
    }
    let mut table = Vec::with_capacity(alloc, pc_count(instrs))?;
    for (index, instr) in instrs.iter().enumerate() {
        add_index(&mut table, instr.pc, index as u16)?;
    }
    Ok(Items::from(table))
}

/// The indices of instructions by method and pc, for methods with these codes.
pub fn all_by_pc(alloc: Global, codes: &[Option<MethodCode>]) -> Result<Vec<Items<u16>>, NoMemory>
    ensures { IfOk result (λ v. AreByPc codes.now v.items) }
{
    let mut tables = Vec::with_capacity(alloc, codes.len())?;
    for code in codes {
        tables.push(by_pc(alloc, instrs_in(code))?)?;
    }
    Ok(tables)
}

/// The index of the instruction that begins at a pc of a method, by the tables.
pub fn index_by(tables: &[Items<u16>], method: u32, pc: u32) -> Option<u32>
    ensures { result ≡ spec.stored_index (get_or tables.now method []) pc }
{
    match tables.get(method as usize) {
        Some(table) => stored_index(table, pc),
        None => None,
    }
}

fn stored_index(table: &[u16], pc: u32) -> Option<u32>
    ensures { result ≡ spec.stored_index table.now pc }
{
    match table.get(pc as usize) {
        Some(stored) => some_index(*stored),
        None => None,
    }
}
