//! Kinds and widths of verification types (JVMS 2.11.1, 4.10.1.2).

ghost use Rattle.std.specs.Prelude.{◌≡◌};
ghost use Rattle.instruction_rows.specs.Kinds.{kind_of_type};
ghost use Rattle.instruction_rows.specs.Contents.{is_wide, is_narrow};

use opcodes::ValueKind;
use stack_maps::VType;

/// The kind of the values that a verification type stands for (JVMS 2.11.1, 4.10.1.2). `None` for Top, float and
/// double.
pub fn kind_of_type(t: VType) -> Option<ValueKind>
    ensures { result ≡ kind_of_type t }
{
    match t {
        VType::Top | VType::Float | VType::Double => None,
        VType::Int => Some(ValueKind::Int),
        VType::Long => Some(ValueKind::Long),
        VType::Null
        | VType::UninitThis
        | VType::Object(_)
        | VType::Uninit(_)
        | VType::Named(_, _) => Some(ValueKind::Reference),
    }
}

/// Whether values of the type take two slots (JVMS 2.11.1: category 2).
pub fn is_wide(t: VType) -> bool
    ensures { result ≡ is_wide t }
{
    match t {
        VType::Long | VType::Double => true,
        _ => false,
    }
}

/// Whether values of the type take one slot (JVMS 2.11.1: category 1). Top is no type of a value.
pub fn is_narrow(t: VType) -> bool
    ensures { result ≡ is_narrow t }
{
    match t {
        VType::Top | VType::Long | VType::Double => false,
        _ => true,
    }
}
