//! The class itself (JVMS 4.1).

ghost use Rattle.std.specs.Prelude.{◌≡◌, ◌≤◌, ◌+◌};
ghost use Rattle.class_grammar.specs.Checks as checks;
ghost use Rattle.class_grammar.specs.Checks.{left_after, class_items};

use crate::pool::{Pool, unless};
use crate::sizes::check_numbers;
use class_grammar::{ClassFault, ClassWhy};
use class_model::{ACC_MODULE, ClassFile};
use std::sync::ledger::Ledger;
use steps::Steps;

/// Goes over the class's flags, its own name, its parent and its interfaces.
pub fn check_class<L: Ledger>(
    pool: &Pool,
    left: usize,
    file: &ClassFile,
    steps: &mut Steps<L>,
) -> Result<usize, ClassFault>
    requires { pool.now ≡ file.now.pool }
    ensures left { result ≡ left_after left (class_items file.now) }
    ensures cost { steps.new ≤ steps.old + 16 }
{
    let faults = [
        flags_fault(file.flags),
        pool.class_fault(file.own),
        pool.parent_fault(file.own, file.parent, steps),
    ];
    let left = check_numbers(left, &faults)?;
    check_interfaces(pool, left.saturating_sub(2), &file.interfaces)
}

// The fault of the flags of a module.
fn flags_fault(flags: u16) -> Option<ClassWhy>
    ensures { result ≡ checks.flags_fault flags }
{
    unless(flags & ACC_MODULE == 0, ClassWhy::Unsupported)
}

fn check_interfaces(pool: &Pool, left: usize, indices: &[u16]) -> Result<usize, ClassFault>
    ensures { result ≡ left_after left (checks.interface_items pool.now indices.now) }
{
    let mut left = left;
    for index in indices {
        left = check_numbers(left, &[pool.class_fault(*index)])?;
    }
    Ok(left)
}
