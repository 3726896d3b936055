//! Offsets of labels, and numbers with their highest byte first.

ghost use Rattle.std.specs.Prelude.{◌≡◌, ◌++◌, OnOk, IfOk};
ghost use Rattle.asm_code.specs.Encoding as spec;
ghost use Rattle.asm_code.specs.Encoding.{Puts, Narrows};
ghost use Rattle.asm_code.specs.Places.{place_of};

use crate::labels::Labels;
use asm_text::{LineError, Name};
use std::alloc::AllocError;

/// Appends a number of two bytes.
pub fn put_u2(code: &mut Vec<u8>, n: u16) -> Result<(), AllocError>
    ensures { OnOk result (code.new.items ≡ code.old.items ++ spec.u2 n) }
{
    code.extend_from_slice(&n.to_be_bytes())
}

/// Appends a number of two bytes with a sign.
pub fn put_s2(code: &mut Vec<u8>, n: i16) -> Result<(), AllocError>
    ensures { OnOk result (code.new.items ≡ code.old.items ++ spec.s2 n) }
{
    code.extend_from_slice(&n.cast_unsigned().to_be_bytes())
}

/// Appends a number of four bytes with a sign.
pub fn put_s4(code: &mut Vec<u8>, n: i32) -> Result<(), AllocError>
    ensures { OnOk result (code.new.items ≡ code.old.items ++ spec.s4 n) }
{
    code.extend_from_slice(&n.cast_unsigned().to_be_bytes())
}

fn offset(pc: u16, target: u16) -> i32
    ensures { result ≡ spec.offset pc target }
{
    i32::from(target) - i32::from(pc)
}

// The offset in two bytes, where it fits.
fn narrow(offset: i32) -> Result<i16, LineError>
    ensures { Narrows result offset }
{
    if offset < -32_768 || offset > 32_767 {
        return Err(LineError::Bad);
    }
    Ok(offset as i16)
}

/// Appends the offset of a label from the pc in two bytes.
pub fn put_near(code: &mut Vec<u8>, labels: &Labels, pc: u16, label: &[u8]) -> Result<(), LineError>
    ensures { Puts result code.new.items
        (spec.near (place_of labels.now) pc label.now code.old.items) }
{
    let target = labels.place(label).ok_or(LineError::Bad)?;
    let near = narrow(offset(pc, target))?;
    put_s2(code, near)?;
    Ok(())
}

/// Appends the offset of a label from the pc in four bytes.
pub fn put_far(code: &mut Vec<u8>, labels: &Labels, pc: u16, label: &[u8]) -> Result<(), LineError>
    ensures { Puts result code.new.items
        (spec.far (place_of labels.now) pc label.now code.old.items) }
{
    let target = labels.place(label).ok_or(LineError::Bad)?;
    put_s4(code, offset(pc, target))?;
    Ok(())
}

/// Appends the offsets of labels in four bytes each.
pub fn put_all_far(
    code: &mut Vec<u8>,
    labels: &Labels,
    pc: u16,
    names: &[Name],
) -> Result<(), LineError>
    ensures { Puts result code.new.items
        (spec.far_all (place_of labels.now) pc names.now code.old.items) }
{
    for name in names {
        put_far(code, labels, pc, name)?;
    }
    Ok(())
}
