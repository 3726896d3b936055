//! Items of known size (JVMS 4): how many bytes are left after them, or the first fault.

ghost use Rattle.std.specs.Prelude.{◌≡◌, ◌+◌, ◌-◌, map, length};
ghost use Rattle.std.specs.List.{sum_by};
ghost use Rattle.jvm_utf8.specs.Text.{unit as unit_bytes};
ghost use Rattle.class_grammar.specs.Checks.{left_after, u2_item as item};
ghost use Rattle.class_checks.specs.Costs as costs;
ghost use Rattle.class_checks.specs.Sizes.{const_size, text_size};

use byte_reader::Fault;
use class_grammar::{ClassFault, ClassWhy};
use class_model::Const;
use std::sync::ledger::Ledger;
use steps::Steps;

/// Goes over numbers of two bytes each, which have these faults.
pub fn check_numbers(left: usize, faults: &[Option<ClassWhy>]) -> Result<usize, ClassFault>
    ensures { result ≡ left_after left (map item faults.now) }
{
    let mut left = left;
    for fault in faults {
        if let Some(why) = fault {
            return Err(Fault { left, why: *why });
        }
        left = left.saturating_sub(2);
    }
    Ok(left)
}

/// How many bytes are left after these constants, where the units of their texts weren't counted in `left` (JVMS 4.4.7).
pub fn left_behind_text<L: Ledger>(left: usize, constants: &[Const], steps: &mut Steps<L>) -> usize
    ensures left { result ≡ left - sum_by const_size constants.now }
    ensures cost { steps.new ≡ steps.old + sum_by costs.adding constants.now }
{
    let mut left = left;
    for constant in constants {
        left = left.saturating_sub(size_of_const(constant, steps));
    }
    left
}

// How many bytes the units of a constant take, if it is a text.
fn size_of_const<L: Ledger>(constant: &Const, steps: &mut Steps<L>) -> usize
    ensures size { result ≡ const_size constant.now }
    ensures cost { steps.new ≡ steps.old + costs.adding constant.now }
{
    match constant {
        Const::Utf8(units) => size_of_text(units, steps),
        _ => 0,
    }
}

// How many bytes the units of a text take (JVMS 4.4.7).
fn size_of_text<L: Ledger>(text: &[u16], steps: &mut Steps<L>) -> usize
    ensures size { result ≡ text_size text.now }
    ensures cost { steps.new ≡ steps.old + length text.now }
{
    let mut size = 0;
    for unit in text {
        steps.spend(1);
        size += size_of_unit(*unit);
    }
    size
}

fn size_of_unit(unit: u16) -> usize
    ensures { result ≡ length (unit_bytes unit) }
{
    1 + usize::from(unit == 0 || unit > 127) + usize::from(unit > 2047)
}
