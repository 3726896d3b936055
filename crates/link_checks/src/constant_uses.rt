//! What instructions ask of the constants that they name, and what of it is known to be fine: many instructions ask the same.

ghost use Rattle.std.specs.Prelude.{◌≡◌, true, None, Some, IfOk, replicate, slice_get};
ghost use Rattle.items.specs.First.{first_some};
ghost use Rattle.link_checks.specs.ConstantUses.{AreFine, use_faults, with_use};

use crate::instructions::{Namer, class_fault_at, field_fault_at, method_fault_at};
use items::NoMemory;
use link_rules::{Invocation, LinkWhy, Purpose};
use std::alloc::Global;

/// What an instruction asks of a constant: a field, static or of an object, a method that is invoked so, or a class for a purpose.
#[derive(Clone, Copy, PartialEq, Eq)]
pub enum Use {
    StaticField,
    ObjectField,
    Method(Invocation),
    Class(Purpose),
}

/// A table for a pool of this size, in which nothing is known.
pub fn no_uses(alloc: Global, constants: usize) -> Result<Vec<Option<Use>>, NoMemory>
    ensures { IfOk result (λ fine. fine.items ≡ replicate constants None) }
{
    Ok(vec![in alloc; None; constants]?)
}

// Whether it is known that this use of the constant at an index is fine.
fn is_known(fine: &[Option<Use>], wanted: Use, index: u16) -> bool
    ensures { result ≡ true → slice_get fine.now index ≡ Some (Some wanted) }
{
    match fine.get(usize::from(index)) {
        Some(Some(other)) => *other == wanted,
        _ => false,
    }
}

// What is wrong with a use of the constant at an index.
fn use_fault(
    alloc: Global,
    namer: Namer,
    wanted: Use,
    index: u16,
) -> Result<Option<LinkWhy>, NoMemory>
    ensures { IfOk result (λ fault. fault ≡ first_some (use_faults namer.entry.world.now
        namer.entry.class namer.entry.pool.now wanted index)) }
{
    match wanted {
        Use::StaticField => Ok(field_fault_at(namer, true, index)),
        Use::ObjectField => Ok(field_fault_at(namer, false, index)),
        Use::Method(call) => method_fault_at(alloc, namer, call, index),
        Use::Class(purpose) => Ok(class_fault_at(namer, purpose, index)),
    }
}

// Notes a use that is fine.
fn note(fine: &mut [Option<Use>], fault: Option<LinkWhy>, wanted: Use, index: u16)
    ensures { fine.new ≡ with_use fine.old fault wanted index }
{
    let index = usize::from(index);
    if fault.is_none() && index < fine.len() {
        fine[index] = Some(wanted);
    }
}

/// What is wrong with a use of the constant at an index, which is looked for only where it isn't known to be fine.
pub fn known_fault(
    alloc: Global,
    namer: Namer,
    fine: &mut [Option<Use>],
    wanted: Use,
    index: u16,
) -> Result<Option<LinkWhy>, NoMemory>
    requires { AreFine namer.world.now namer.class namer.pool.now fine.old }
    ensures fault { IfOk result (λ fault. fault ≡ first_some (use_faults namer.entry.world.now
        namer.entry.class namer.entry.pool.now wanted index)) }
    ensures fine { AreFine namer.entry.world.now namer.entry.class namer.entry.pool.now fine.new }
{
    if is_known(fine, wanted, index) {
        return Ok(None);
    }
    let fault = use_fault(alloc, namer, wanted, index)?;
    note(fine, fault, wanted, index);
    Ok(fault)
}
