//! The constants of the pool (JVMS 4.4).

ghost use Rattle.std.specs.Prelude.{◌≡◌, ◌≤◌, ◌+◌, ◌∷◌, [], OnOk};
ghost use Rattle.std.specs.List.{flat_map, sum_by};
ghost use Rattle.class_grammar.specs.Checks.{left_after, sound_bytes, u2_item as item, constant_items};
ghost use Rattle.class_checks.specs.Costs as costs;
ghost use Rattle.class_checks.specs.Sizes.{bare_items, const_size, less_at_end};

use crate::pool::Pool;
use crate::sizes::{check_numbers, left_behind_text};
use byte_reader::Fault;
use class_grammar::{ClassFault, ClassWhy};
use class_model::Const;
use std::sync::ledger::Ledger;
use steps::Steps;

/// Goes over constants (JVMS 4.4). The units of their texts are added up where a fault is found; where none is, they are not
/// counted in what is left.
pub fn check_constants<L: Ledger>(
    pool: &Pool,
    left: usize,
    constants: &[Const],
    steps: &mut Steps<L>,
) -> Result<usize, ClassFault>
    ensures left { less_at_end (sum_by const_size constants.now) result
        ≡ left_after left (flat_map (constant_items pool.now) constants.now) }
    ensures cost { steps.new ≤ steps.old + sum_by costs.adding constants.now }
    ensures none { OnOk result (steps.new ≡ steps.old) }
{
    let mut left = left;
    for (index, constant) in constants.iter().enumerate() {
        match check_constant(pool, left, constant) {
            Ok(after) => left = after,
            Err(fault) => {
                let (before, _) = constants.split_at(index);
                return Err(Fault {
                    left: left_behind_text(fault.left, before, steps),
                    why: fault.why,
                });
            }
        }
    }
    Ok(left)
}

// The same of one constant.
fn check_constant(pool: &Pool, left: usize, constant: &Const) -> Result<usize, ClassFault>
    ensures { result ≡ left_after left (bare_items pool.now constant.now) }
{
    match constant {
        Const::Unused => Ok(left),
        Const::Utf8(_) | Const::Module(_) | Const::Package(_) => Ok(left.saturating_sub(3)),
        Const::MethodHandle(_, _) => Ok(left.saturating_sub(4)),
        Const::Integer(_) | Const::Float(_) | Const::Dynamic(_, _) | Const::InvokeDynamic(_, _) =>
            Ok(left.saturating_sub(5)),
        Const::Long(_) | Const::Double(_) => Ok(left.saturating_sub(9)),
        Const::Class(name) => check_index(left, pool.class_name_fault(*name)),
        Const::Text(text) => check_index(left, pool.any_text_fault(*text)),
        Const::MethodType(descriptor) => {
            check_index(left, pool.method_descriptor_fault(*descriptor))
        }
        Const::Fieldref(class, member) => check_indices(
            left,
            pool.class_fault(*class),
            pool.of_field_fault(*member),
        ),
        Const::Methodref(class, member) | Const::InterfaceMethodref(class, member) => check_indices(
            left,
            pool.class_fault(*class),
            pool.of_method_fault(*member),
        ),
        Const::NameAndType(name, descriptor) => check_indices(
            left,
            pool.name_fault(*name, *descriptor),
            pool.descriptor_fault(*descriptor),
        ),
    }
}

// A tag, and an index with this fault.
fn check_index(left: usize, fault: Option<ClassWhy>) -> Result<usize, ClassFault>
    ensures { result ≡ left_after left (sound_bytes 1 ∷ item fault ∷ []) }
{
    check_numbers(left.saturating_sub(1), &[fault])
}

// A tag, and two indices with these faults.
fn check_indices(
    left: usize,
    first: Option<ClassWhy>,
    second: Option<ClassWhy>,
) -> Result<usize, ClassFault>
    ensures { result ≡ left_after left (sound_bytes 1 ∷ item first ∷ item second ∷ []) }
{
    check_numbers(left.saturating_sub(1), &[first, second])
}
