//! From the units of a text to modified UTF-8 (JVMS 4.4.7).

ghost use Rattle.std.specs.Prelude.{◌≡◌, ◌++◌, IfOk, OnOk};
ghost use Rattle.std.specs.Io.{StartsWith};
ghost use Rattle.jvm_utf8.specs.Text.{unit as unit_bytes, text};

use items::NoMemory;
use std::alloc::{AllocError, Global};

/// The bytes of the units (JVMS 4.4.7).
pub fn encode(alloc: Global, units: &[u16]) -> Result<Vec<u8>, NoMemory>
    ensures { IfOk result (λ v. v.items ≡ text units.now) }
{
    let mut bytes = Vec::with_capacity(alloc, units.len())?;
    append(&mut bytes, units)?;
    Ok(bytes)
}

/// Appends the bytes of the units (JVMS 4.4.7). Where memory runs out, some of these bytes may
/// have been appended.
pub fn append(bytes: &mut Vec<u8>, units: &[u16]) -> Result<(), NoMemory>
    ensures ok { OnOk result (bytes.new.items ≡ bytes.old.items ++ text units.now) }
    // The bytes before are still in front, whatever the answer is.
    ensures kept { StartsWith bytes.new.items bytes.old.items }
    // Nothing else is appended, whatever the answer is.
    ensures part { StartsWith (bytes.old.items ++ text units.now) bytes.new.items }
{
    for unit in units {
        put_unit(bytes, *unit)?;
    }
    Ok(())
}

// Appends the bytes of a unit, or where memory runs out some of them.
fn put_unit(bytes: &mut Vec<u8>, unit: u16) -> Result<(), AllocError>
    ensures ok { OnOk result (bytes.new.items ≡ bytes.old.items ++ unit_bytes unit) }
    ensures kept { StartsWith bytes.new.items bytes.old.items }
    ensures part { StartsWith (bytes.old.items ++ unit_bytes unit) bytes.new.items }
{
    match unit {
        0x01..=0x7f => bytes.extend_from_slice(&[unit as u8]),
        0 | 0x80..=0x7ff => bytes.extend_from_slice(&[
            0xc0 + (unit / 64) as u8,
            0x80 + (unit % 64) as u8,
        ]),
        _ => bytes.extend_from_slice(&[
            0xe0 + (unit / 4096) as u8,
            0x80 + (unit / 64 % 64) as u8,
            0x80 + (unit % 64) as u8,
        ]),
    }
}
