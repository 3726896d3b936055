ghost use Rattle.std.specs.Prelude.{◌≡◌};
ghost use Rattle.link_rules.specs.Instructions as spec;

use opcodes::Primitive;

/// Whether the elements of an array that newarray makes are floats or doubles (JVMS 6.5).
pub fn is_floating_primitive(primitive: Primitive) -> bool
    ensures { result ≡ spec.is_floating_primitive primitive }
{
    matches!(primitive, Primitive::Float | Primitive::Double)
}
