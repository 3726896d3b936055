//! What the constants of all instructions mean, by method.

ghost use Rattle.std.specs.Prelude.{◌≡◌, ◌++◌, List, map, OnOk, IfOk};
ghost use Rattle.link_model.specs.declared.sites.Resolution.{Resolution as Meaning};
ghost use Rattle.link_model.specs.Infos.{codes_in, codes_of};
ghost use Rattle.link_model.specs.Sites as spec;
ghost use Rattle.link_tables.specs.KnownResolutions.{Knows};
ghost use Rattle.link_tables.specs.Resolutions.{resolutions_in};
ghost use Rattle.link_tables.specs.ResolutionTables.{AreListsOf, AreNumbersOf, Begins, Extends};
ghost use Rattle.link_tables.specs.Linkings.{linking_in};

use crate::known_resolutions::KnownResolutions;
use crate::resolution_table::first_resolutions;
use crate::sites::{Linker, catch_of, number_of};
use class_model::{ClassFile, Const, Member, Row};
use items::{Items, NoMemory};
use link_model::{MethodCode, Resolution};
use link_numbers::{body_of, instrs_in};
use opcodes::Instr;
use std::alloc::Global;

/// What the constants of instructions mean: by method and instruction, the number of the meaning in a table.
#[derive(Drop)]
pub(crate) struct NumberedResolutions {
    pub(crate) numbers: Vec<Items<u32>>,
    pub(crate) table: Vec<Resolution>,
}

// The numbers of what instructions name.
fn instr_numbers(
    alloc: Global,
    l: Linker,
    class: u32,
    pool: &[Const],
    known: &mut KnownResolutions,
    table: &mut Vec<Resolution>,
    instrs: &[Instr],
) -> Result<Items<u32>, NoMemory>
    requires { Knows (linking_in l) class pool.now table.old.items known.old }
    ensures numbers { IfOk result (λ ns. AreNumbersOf table.new.items ns
        (map (spec.instr_resolution (linking_in l.entry) class pool.now) instrs.now)) }
    ensures extends { OnOk result (Extends table.old.items table.new.items) }
    ensures known { OnOk result
        (Knows (linking_in l.entry) class pool.now table.new.items known.new) }
{
    let mut numbers = Vec::with_capacity(alloc, instrs.len())?;
    for instr in instrs {
        numbers.push(number_of(alloc, l, class, pool, known, table, &instr.op)?)?;
    }
    Ok(Items::from(numbers))
}

fn code_numbers(
    alloc: Global,
    l: Linker,
    class: u32,
    pool: &[Const],
    known: &mut KnownResolutions,
    codes: &[Option<MethodCode>],
    resolutions: &mut NumberedResolutions,
) -> Result<(), NoMemory>
    requires { Knows (linking_in l) class pool.now resolutions.old.table.items known.old }
    ensures lists { OnOk result ((xss : List (List Meaning))
        → AreListsOf resolutions.old.table.items resolutions.old.numbers.items xss
        → AreListsOf resolutions.new.table.items resolutions.new.numbers.items
        (xss ++ map (resolutions_in (linking_in l.entry) class pool.now) codes.now)) }
    ensures begins { OnOk result (Begins (linking_in l.entry) resolutions.new.table.items) }
{
    for code in codes {
        let instrs = instrs_in(code);
        let numbers = instr_numbers(alloc, l, class, pool, known, &mut resolutions.table, instrs)?;
        resolutions.numbers.push(numbers)?;
    }
    Ok(())
}

// Adds what the methods of a file name, which have these codes.
fn add_numbers(
    alloc: Global,
    l: Linker,
    class: u32,
    file: &ClassFile,
    codes: &[Option<MethodCode>],
    resolutions: &mut NumberedResolutions,
) -> Result<(), NoMemory>
    requires codes { codes.now ≡ codes_in file.now }
    requires begins { Begins (linking_in l) resolutions.old.table.items }
    ensures lists { OnOk result ((xss : List (List Meaning))
        → AreListsOf resolutions.old.table.items resolutions.old.numbers.items xss
        → AreListsOf resolutions.new.table.items resolutions.new.numbers.items
        (xss ++ spec.resolutions_in (linking_in l.entry) (class, file.now))) }
    ensures begins { OnOk result (Begins (linking_in l.entry) resolutions.new.table.items) }
{
    let mut known = KnownResolutions::new(alloc, file.pool.len())?;
    code_numbers(alloc, l, class, &file.pool, &mut known, codes, resolutions)?;
    Ok(())
}

/// What the constants of instructions mean, by the method's number. The methods have these codes.
pub(crate) fn all_resolutions(
    alloc: Global,
    l: Linker,
    codes: &[Option<MethodCode>],
) -> Result<NumberedResolutions, NoMemory>
    requires { codes.now ≡ codes_of (linking_in l).program }
    ensures { IfOk result (λ v. AreListsOf v.table.items v.numbers.items
        (spec.resolutions_of (linking_in l.entry))) }
{
    let mut resolutions = NumberedResolutions {
        numbers: Vec::with_capacity(alloc, codes.len())?,
        table: first_resolutions(alloc, l)?,
    };
    let files = l.members.hierarchy().classes().files();
    let mut rest = codes;
    for (class, file) in files.iter().enumerate() {
        let (here, behind) = rest.split_at(file.methods.len());
        add_numbers(alloc, l, class as u32, file, here, &mut resolutions)?;
        rest = behind;
    }
    Ok(resolutions)
}

fn rows_of(method: &Member) -> &[Row]
    ensures { result.now ≡ spec.rows_of method.now }
{
    match body_of(method) {
        Some(body) => &body.rows,
        None => &[],
    }
}

fn row_catches(
    alloc: Global,
    l: Linker,
    pool: &[Const],
    rows: &[Row],
) -> Result<Items<Option<u32>>, NoMemory>
    ensures { IfOk result (λ v. v ≡
        map (spec.catch_of (linking_in l.entry) pool.now) rows.now) }
{
    let mut catches = Vec::with_capacity(alloc, rows.len())?;
    for row in rows {
        catches.push(catch_of(alloc, l, pool, row)?)?;
    }
    Ok(Items::from(catches))
}

fn add_catches(
    alloc: Global,
    l: Linker,
    file: &ClassFile,
    catches: &mut Vec<Items<Option<u32>>>,
) -> Result<(), NoMemory>
    ensures { OnOk result (catches.new.items ≡
        catches.old.items ++ spec.catches_in (linking_in l.entry) file.now) }
{
    for method in file.methods.iter() {
        catches.push(row_catches(alloc, l, &file.pool, rows_of(method))?)?;
    }
    Ok(())
}

/// Which classes the rows of exception tables catch, by the method's number.
pub fn all_catches(alloc: Global, l: Linker) -> Result<Vec<Items<Option<u32>>>, NoMemory>
    ensures { IfOk result (λ v. v.items ≡ spec.catches_of (linking_in l.entry)) }
{
    let mut catches = Vec::new(alloc);
    for file in l.members.hierarchy().classes().files() {
        add_catches(alloc, l, file, &mut catches)?;
    }
    Ok(catches)
}
