//! What is wrong with a class, and with a program (JVMS 5.3, 5.4).

ghost use Rattle.std.specs.Prelude.{◌≡◌, IfOk, Some, slice_get};
ghost use Rattle.std.specs.List.{enumerate_from};
ghost use Rattle.items.specs.First.{first_in};
ghost use Rattle.link_rules.specs.Faults as spec;
ghost use Rattle.link_checks.specs.ConstantUses.{AreFine};
ghost use Rattle.link_checks.specs.Firsts as firsts;
ghost use Rattle.link_checks.specs.Firsts.{class_why, code_why, field_why, interface_why, method_why};

use crate::class_rules::{field_fault, interface_fault, method_fault, name_fault, parent_fault};
use crate::code::method_code_fault;
use crate::constant_uses::{Use, no_uses};
use crate::instructions::Namer;
use class_model::{ClassFile, Member};
use items::{Items, NoMemory};
use link_resolution::{Hierarchy, name_at, own_name};
use link_rules::{LinkFault, LinkWhy};
use std::alloc::Global;

fn interfaces_fault(world: &Hierarchy, class: u32, file: &ClassFile) -> Option<LinkWhy>
    ensures { result ≡ first_in (interface_why world.now class file.now) file.now.interfaces }
{
    for index in file.interfaces.iter() {
        if let Some(why) = interface_fault_at(world, class, file, *index) {
            return Some(why);
        }
    }
    None
}

fn interface_fault_at(
    world: &Hierarchy,
    class: u32,
    file: &ClassFile,
    index: u16,
) -> Option<LinkWhy>
    ensures { result ≡ interface_why world.now class file.now index }
{
    interface_fault(world, class, name_at(&file.pool, index))
}

fn fields_fault(world: &Hierarchy, class: u32, file: &ClassFile) -> Option<LinkWhy>
    requires { slice_get world.now.classes class ≡ Some file.now }
    ensures { result ≡ first_in (field_why world.now class file.now)
        (enumerate_from 0 file.now.fields) }
{
    for (index, field) in file.fields.iter().enumerate() {
        if let Some(why) = field_fault(world, class, file, index, field) {
            return Some(why);
        }
    }
    None
}

fn methods_fault(world: &Hierarchy, class: u32, file: &ClassFile) -> Option<LinkWhy>
    requires { slice_get world.now.classes class ≡ Some file.now }
    ensures { result ≡ first_in (method_why world.now class file.now)
        (enumerate_from 0 file.now.methods) }
{
    for (index, method) in file.methods.iter().enumerate() {
        if let Some(why) = method_fault(world, class, file, index, method) {
            return Some(why);
        }
    }
    None
}

// What is wrong with the code of methods in a class with this pool.
fn codes_fault(
    alloc: Global,
    namer: Namer,
    fine: &mut [Option<Use>],
    methods: &[Member],
) -> Result<Option<LinkWhy>, NoMemory>
    requires { AreFine namer.world.now namer.class namer.pool.now fine.old }
    ensures { IfOk result (λ fault. fault ≡ first_in (code_why namer.entry.world.now
        namer.entry.class namer.entry.pool.now) methods.now) }
{
    for method in methods {
        if let Some(why) = method_code_fault(alloc, namer, fine, method)? {
            return Ok(Some(why));
        }
    }
    Ok(None)
}

// What is wrong with the code of a class's methods.
fn class_codes_fault(
    alloc: Global,
    world: &Hierarchy,
    class: u32,
    file: &ClassFile,
) -> Result<Option<LinkWhy>, NoMemory>
    ensures { IfOk result (λ fault. fault ≡
        first_in (code_why world.now class file.now.pool) file.now.methods) }
{
    let namer = Namer {
        world,
        class,
        pool: &file.pool,
    };
    let mut fine = no_uses(alloc, file.pool.len())?;
    codes_fault(alloc, namer, &mut fine, &file.methods)
}

// What is wrong with a class.
fn class_fault(
    alloc: Global,
    world: &Hierarchy,
    class: u32,
    file: &ClassFile,
) -> Result<Option<LinkWhy>, NoMemory>
    requires { slice_get world.now.classes class ≡ Some file.now }
    ensures { IfOk result (λ fault. fault ≡ class_why world.now class file.now) }
{
    let name = name_fault(world, class, file);
    let parent = parent_fault(world, class, file);
    let interfaces = interfaces_fault(world, class, file);
    let fields = fields_fault(world, class, file);
    let methods = methods_fault(world, class, file);
    let codes = class_codes_fault(alloc, world, class, file)?;
    Ok(
        name.or(parent)
            .or(interfaces)
            .or(fields)
            .or(methods)
            .or(codes),
    )
}

fn fault_of_class(
    alloc: Global,
    world: &Hierarchy,
    class: u32,
    file: &ClassFile,
) -> Result<Option<LinkFault>, NoMemory>
    requires { slice_get world.now.classes class ≡ Some file.now }
    ensures { IfOk result (λ fault. fault ≡ firsts.fault_of_class world.now (class, file.now)) }
{
    match class_fault(alloc, world, class, file)? {
        Some(why) => Ok(Some(LinkFault {
            class: Items::from(Vec::from_slice(alloc, own_name(file))?),
            why,
        })),
        None => Ok(None),
    }
}

/// What is wrong first with a program, and the class where it is. `None`: the program links.
#[tactic(auto, using(crate::proofs::FaultLaws::program_is))]
pub fn link_fault(alloc: Global, world: &Hierarchy) -> Result<Option<LinkFault>, NoMemory>
    ensures { IfOk result (λ fault. fault ≡ spec.link_fault world.now) }
{
    for (index, file) in world.classes().files().iter().enumerate() {
        if let Some(fault) = fault_of_class(alloc, world, index as u32, file)? {
            return Ok(Some(fault));
        }
    }
    Ok(None)
}
