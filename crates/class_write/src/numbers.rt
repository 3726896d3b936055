//! Numbers with their highest byte first (JVMS 4), and lengths that are filled in after their bytes.

ghost use Rattle.std.specs.Prelude.{◌≡◌, ◌+◌, ◌<◌, ◌≤◌, ◌^◌, ◌++◌, length, take, drop, OnOk};
ghost use Rattle.class_grammar.specs.Layout as spec;

use items::NoMemory;

/// A number in two bytes (JVMS 4).
pub fn u2(out: &mut Vec<u8>, n: u16) -> Result<(), NoMemory>
    ensures { OnOk result (out.new.items ≡ out.old.items ++ spec.u2 n) }
{
    out.extend_from_slice(&n.to_be_bytes())?;
    Ok(())
}

/// A number in four bytes (JVMS 4).
pub fn u4(out: &mut Vec<u8>, n: u32) -> Result<(), NoMemory>
    ensures { OnOk result (out.new.items ≡ out.old.items ++ spec.u4 n) }
{
    out.extend_from_slice(&n.to_be_bytes())?;
    Ok(())
}

/// Puts into the two bytes at the offset `at` how many bytes follow them.
pub fn fill_u2(out: &mut Vec<u8>, at: usize)
    requires in_out { at + 2 ≤ length out.old.items }
    requires in_range { length (drop (at + 2) out.old.items) < 2 ^ 16 }
    ensures { out.new.items ≡ take at out.old.items ++ spec.string (drop (at + 2) out.old.items) }
{
    let behind = at + 2;
    let len = (out.len() - behind) as u16;
    out[at..behind].copy_from_slice(&len.to_be_bytes());
}

/// Puts into the four bytes at the offset `at` how many bytes follow them.
pub fn fill_u4(out: &mut Vec<u8>, at: usize)
    requires in_out { at + 4 ≤ length out.old.items }
    requires in_range { length (drop (at + 4) out.old.items) < 2 ^ 32 }
    ensures { out.new.items ≡
        take at out.old.items ++ spec.length_and_bytes (drop (at + 4) out.old.items) }
{
    let behind = at + 4;
    let len = (out.len() - behind) as u32;
    out[at..behind].copy_from_slice(&len.to_be_bytes());
}
