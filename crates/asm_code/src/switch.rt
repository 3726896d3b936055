//! The operands of the two switches.

ghost use Rattle.std.specs.Prelude.{◌≡◌, ◌++◌, ◌<◌, ◌^◌, length, pos, OnOk};
ghost use Rattle.std.specs.List.{list_all};
ghost use Rattle.asm_code.specs.Encoding as spec;
ghost use Rattle.asm_code.specs.Encoding.{Puts};
ghost use Rattle.asm_code.specs.Places.{place_of};

use crate::labels::Labels;
use crate::offset::{put_all_far, put_far, put_s4};
use asm_text::{Case, LineError, Name};
use std::alloc::AllocError;

// Zeros, so that the operands of a switch begin at a multiple of 4.
fn put_padding(code: &mut Vec<u8>, pc: u16) -> Result<(), AllocError>
    ensures { OnOk result (code.new.items ≡ code.old.items ++ spec.padding pc) }
{
    match pc % 4 {
        0 => code.extend_from_slice(&[0, 0, 0]),
        1 => code.extend_from_slice(&[0, 0]),
        2 => code.extend_from_slice(&[0]),
        _ => Ok(()),
    }
}

// The highest value of a table of so many labels.
fn highest(low: i32, count: usize) -> Result<i32, LineError>
    ensures { spec.IsHighest result low count }
{
    if count == 0 || count > 65_535 {
        return Err(LineError::Bad);
    }
    low.checked_add(count as i32 - 1).ok_or(LineError::Bad)
}

/// The operands of a tableswitch.
pub fn put_table(
    code: &mut Vec<u8>,
    labels: &Labels,
    pc: u16,
    low: i32,
    names: &[Name],
    default: &[u8],
) -> Result<(), LineError>
    ensures { Puts result code.new.items
        (spec.table (place_of labels.now) pc low names.now default.now code.old.items) }
{
    let high = highest(low, names.len())?;
    put_padding(code, pc)?;
    put_far(code, labels, pc, default)?;
    put_s4(code, low)?;
    put_s4(code, high)?;
    put_all_far(code, labels, pc, names)
}

// Whether the values are above the floor, each above the one before.
fn are_above(floor: i32, cases: &[Case]) -> bool
    ensures { result ≡ spec.are_above floor cases.now }
{
    let mut floor = floor;
    for case in cases {
        if case.value <= floor {
            return false;
        }
        floor = case.value;
    }
    true
}

fn are_rising(cases: &[Case]) -> bool
    ensures { result ≡ spec.are_rising cases.now }
{
    match cases.split_first() {
        Some((first, rest)) => are_above(first.value, rest),
        None => true,
    }
}

fn put_case(code: &mut Vec<u8>, labels: &Labels, pc: u16, case: &Case) -> Result<(), LineError>
    ensures { Puts result code.new.items
        (spec.case (place_of labels.now) pc case.now code.old.items) }
{
    put_s4(code, case.value)?;
    put_far(code, labels, pc, &case.label)
}

fn put_cases(code: &mut Vec<u8>, labels: &Labels, pc: u16, cases: &[Case]) -> Result<(), LineError>
    ensures { Puts result code.new.items
        (spec.cases (place_of labels.now) pc cases.now code.old.items) }
{
    for case in cases {
        put_case(code, labels, pc, case)?;
    }
    Ok(())
}

/// The operands of a lookupswitch.
pub fn put_lookup(
    code: &mut Vec<u8>,
    labels: &Labels,
    pc: u16,
    cases: &[Case],
    default: &[u8],
) -> Result<(), LineError>
    ensures { Puts result code.new.items
        (spec.lookup (place_of labels.now) pc cases.now default.now code.old.items) }
{
    if cases.len() > 65_535 || !are_rising(cases) {
        return Err(LineError::Bad);
    }
    put_padding(code, pc)?;
    put_far(code, labels, pc, default)?;
    put_s4(code, cases.len() as i32)?;
    put_cases(code, labels, pc, cases)
}
