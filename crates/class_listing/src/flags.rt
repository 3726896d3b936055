//! The flags of some bits, in the order of the bits (JVMS 4.1, 4.5, 4.6).

ghost use Rattle.std.specs.Prelude.{◌≡◌, IfOk};
ghost use Rattle.class_listing.specs.Flags as spec;

use asm_text::Flag;
use items::Items;
use std::alloc::{AllocError, Global};

// The flags of these rows whose bit is set.
fn set_flags(alloc: Global, rows: &[(u16, Flag)], bits: u16) -> Result<Items<Flag>, AllocError>
    ensures { IfOk result (λ flags. flags ≡ spec.set_flags rows.now bits) }
{
    let mut flags = Items::new(alloc);
    for (bit, flag) in rows {
        if bits & *bit != 0 {
            flags.push(*flag)?;
        }
    }
    Ok(flags)
}

// Bit 0x20 is this flag.
fn flags_with(alloc: Global, flag: Flag, bits: u16) -> Result<Items<Flag>, AllocError>
    ensures { IfOk result (λ flags. flags ≡ spec.set_flags (spec.rows_with flag) bits) }
{
    let rows = [
        (0x0001, Flag::Public),
        (0x0002, Flag::Private),
        (0x0008, Flag::Static),
        (0x0010, Flag::Final),
        (0x0020, flag),
        (0x0040, Flag::Volatile),
        (0x0100, Flag::Native),
        (0x0200, Flag::Interface),
        (0x0400, Flag::Abstract),
    ];
    set_flags(alloc, &rows, bits)
}

/// The flags of a class.
pub fn class_flags(alloc: Global, bits: u16) -> Result<Items<Flag>, AllocError>
    ensures { IfOk result (λ flags. flags ≡ spec.class_flags bits) }
{
    flags_with(alloc, Flag::Super, bits)
}

/// The flags of a field or a method.
pub fn member_flags(alloc: Global, bits: u16) -> Result<Items<Flag>, AllocError>
    ensures { IfOk result (λ flags. flags ≡ spec.member_flags bits) }
{
    flags_with(alloc, Flag::Synchronized, bits)
}
