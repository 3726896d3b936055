//! The sizes of instructions.

ghost use Rattle.std.specs.Prelude.{◌≡◌, ◌+◌, ◌*◌, ◌<◌, if◌then◌else◌};
ghost use Rattle.asm_code.specs.Sizes as spec;

use crate::instruction::is_small;
use asm_text::Operands;

/// How many bytes the instruction has at `pc`. `None`: more than 65,535.
pub fn size_of(pc: u16, opcode: u8, operands: &Operands) -> Option<u16>
    ensures { result ≡ spec.fitting (spec.size_of pc opcode operands.now) }
{
    match operands {
        Operands::Nothing => Some(1),
        Operands::Byte(_) | Operands::Element(_) => Some(2),
        Operands::Short(_) | Operands::Class(_) => Some(3),
        Operands::Dimensions(..) => Some(4),
        Operands::Constant(_) => Some(choose(opcode == 18, 2, 3)),
        Operands::Local(local) => Some(choose(*local < 256, 2, 4)),
        Operands::Increment(local, value) => Some(choose(is_small(*local, *value), 3, 6)),
        Operands::Branch(_) => Some(choose(opcode == 200, 5, 3)),
        Operands::Member { .. } => Some(choose(opcode == 185, 5, 3)),
        Operands::Table { labels, .. } => fitting(13 + padding_size(pc), 4, labels.len()),
        Operands::Lookup { cases, .. } => fitting(9 + padding_size(pc), 8, cases.len()),
    }
}

// The size of what is in front and of the items behind it, where it is at most 65,535.
fn fitting(front: u16, size: u16, count: usize) -> Option<u16>
    requires front { front < 17 }
    requires size { size < 9 }
    requires some { 0 < size }
    ensures { result ≡ spec.fitting (front + size * count) }
{
    if count > 65_535 {
        return None;
    }
    let whole = u64::from(front) + u64::from(size) * count as u64;
    u16::try_from(whole).ok()
}

fn choose(first: bool, one: u16, other: u16) -> u16
    ensures { result ≡ (if first then one else other) }
{
    if first { one } else { other }
}

fn padding_size(pc: u16) -> u16
    ensures { result ≡ spec.padding_size pc }
{
    3 - pc % 4
}
