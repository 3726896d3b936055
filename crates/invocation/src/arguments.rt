//! The slots that a method's arguments take (JVMS 2.6.1, 4.3.3).

ghost use Rattle.std.specs.Prelude.{◌≡◌, ◌<◌, ◌≤◌, IfNone, IfSome, sum_by};
ghost use Rattle.descriptors.specs.Descriptors as descriptors;
ghost use Rattle.ref_model.specs.Kinds as spec;
ghost use Rattle.invocation.specs.Arguments as taken;

use descriptors::{ElementType, Kind, Signature};

fn element_slots(element: &ElementType) -> u16
    ensures slots { result ≡ descriptors.element_slots element.now }
    ensures few { result ≤ 2 }
{
    match element {
        ElementType::Long | ElementType::Double => 2,
        _ => 1,
    }
}

fn kind_slots(kind: &Kind) -> u16
    ensures slots { result ≡ descriptors.slots kind.now }
    ensures few { result ≤ 2 }
{
    if kind.dimensions == 0 {
        element_slots(&kind.element)
    } else {
        1
    }
}

// Those of kinds, one after the other. `None`: they are more than 255.
fn slots_of(kinds: &[Kind]) -> Option<u16>
    ensures slots { IfSome result (λ n. n ≡ sum_by descriptors.slots kinds.now) }
    ensures few { IfSome result (λ n. n ≤ 255) }
    ensures many { IfNone result (255 < sum_by descriptors.slots kinds.now) }
{
    let mut slots = 0;
    for kind in kinds {
        slots += kind_slots(kind);
        if slots > 255 {
            return None;
        }
    }
    Some(slots)
}

fn is_double(kind: &Kind) -> bool
    ensures { result ≡ taken.is_double kind.now }
{
    kind.dimensions == 0 && matches!(kind.element, ElementType::Double)
}

/// Whether one of a method's arguments is a double, as in no program that runs.
pub(crate) fn takes_double(signature: &Signature) -> bool
    ensures { result ≡ taken.takes_double signature.now }
{
    signature.args.as_slice().iter().any(|kind| is_double(kind))
}

/// The slots of a method's arguments, without the receiver. `None`: they are more than 255, as in no class file.
pub fn argument_slots(signature: &Signature) -> Option<u16>
    ensures slots { IfSome result (λ n. n ≡ spec.argument_slots signature.now) }
    ensures few { IfSome result (λ n. n ≤ 255) }
    ensures many { IfNone result (255 < spec.argument_slots signature.now) }
{
    slots_of(signature.args.as_slice())
}
