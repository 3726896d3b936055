//! The checks of a whole class file.

ghost use Rattle.std.specs.Prelude.{◌≡◌, ◌≤◌, ◌<◌, ◌+◌, ◌++◌, Some, None, Err, OnOk};
ghost use Rattle.std.specs.List.{sum_by};
ghost use Rattle.byte_reader.specs.declared.fault.Fault.{Fault as AnyFault};
ghost use Rattle.class_grammar.specs.declared.class_why.ClassWhy.{ClassWhy as AnyReason};
ghost use Rattle.class_grammar.specs.Checks.{left_after, fault_of, class_items, items as items_of, member_items, first_fault};
ghost use Rattle.class_checks.specs.Costs as costs;

use crate::class::check_class;
use crate::constants::check_constants;
use crate::members::{check_fields, check_methods};
use crate::pool::Pool;
use crate::sizes::left_behind_text;
use byte_reader::{Fault, Stop};
use class_grammar::{ClassFault, ClassWhy};
use class_model::ClassFile;
use std::alloc::Global;
use std::marker::Brand;
use std::sync::ledger::{Blank, Ledger};
use steps::Steps;

/// Checks the items of a class file that takes `size` bytes, in the order of the file (JVMS 4.1 to 4.9).
pub fn check(alloc: Global, file: &ClassFile, size: usize) -> Result<(), Stop<ClassWhy>>
    // Where the call succeeds, nothing is wrong with any item.
    ensures found { OnOk result (first_fault size file.now ≡ None) }
    // Otherwise the fault is that of the first item that is wrong.
    ensures bad { (fault : AnyFault AnyReason) → result ≡ Err (Stop.Fault fault) →
        first_fault size file.now ≡ Some fault }
{
    check_on::<Brand>(alloc, file, size, Blank::new(1))
}

// `check`, on a ledger that nobody reads.
fn check_on<L: Ledger>(
    alloc: Global,
    file: &ClassFile,
    size: usize,
    blank: Blank,
) -> Result<(), Stop<ClassWhy>>
    requires name { blank.name ≡ L.name }
    requires parts { blank.parts ≡ L.parts }
    requires some { 0 < L.parts }
    ensures found { OnOk result (first_fault size file.now ≡ None) }
    ensures bad { (fault : AnyFault AnyReason) → result ≡ Err (Stop.Fault fault) →
        first_fault size file.now ≡ Some fault }
{
    let mut steps = Steps::<L>::new(blank);
    check_counted(alloc, file, size, &mut steps)
}

/// `check`, with its steps counted.
#[tactic(auto, unfolding(class_grammar::specs::Checks::first_fault))]
pub fn check_counted<L: Ledger>(
    alloc: Global,
    file: &ClassFile,
    size: usize,
    steps: &mut Steps<L>,
) -> Result<(), Stop<ClassWhy>>
    ensures found { OnOk result (first_fault size file.now ≡ None) }
    ensures bad { (fault : AnyFault AnyReason) → result ≡ Err (Stop.Fault fault) →
        first_fault size file.now ≡ Some fault }
    // Each text is gone over at most twice, and a third time where a fault is found.
    ensures cost { steps.new ≤ steps.old + costs.checking file.now }
{
    let pool = Pool::new(alloc, &file.pool, steps)?;
    check_items(&pool, size, file, steps)?;
    Ok(())
}

// Goes over the items of a file of this size. The attributes of the class can't be wrong.
#[inline(never)]
fn check_items<L: Ledger>(
    pool: &Pool,
    size: usize,
    file: &ClassFile,
    steps: &mut Steps<L>,
) -> Result<(), ClassFault>
    requires { pool.now ≡ file.now.pool }
    ensures fault { fault_of result ≡ fault_of (left_after size (items_of file.now)) }
    ensures cost { steps.new ≤ steps.old + 16 + sum_by costs.adding file.now.pool }
{
    let left = check_constants(pool, size.saturating_sub(10), &file.pool, steps)?;
    match check_rest(pool, left, file, steps) {
        Ok(_) => Ok(()),
        Err(fault) => Err(Fault {
            left: left_behind_text(fault.left, &file.pool, steps),
            why: fault.why,
        }),
    }
}

// Goes over what follows the pool.
fn check_rest<L: Ledger>(
    pool: &Pool,
    left: usize,
    file: &ClassFile,
    steps: &mut Steps<L>,
) -> Result<usize, ClassFault>
    requires { pool.now ≡ file.now.pool }
    ensures left { result ≡ left_after left (class_items file.now ++ member_items file.now) }
    ensures cost { steps.new ≤ steps.old + 16 }
{
    let left = check_class(pool, left, file, steps)?;
    check_members(pool, left, file)
}

// Goes over the fields and the methods (JVMS 4.1).
fn check_members(pool: &Pool, left: usize, file: &ClassFile) -> Result<usize, ClassFault>
    requires { pool.now ≡ file.now.pool }
    ensures { result ≡ left_after left (member_items file.now) }
{
    let left = check_fields(pool, left.saturating_sub(2), &file.fields)?;
    check_methods(pool, left.saturating_sub(2), &file.methods)
}
