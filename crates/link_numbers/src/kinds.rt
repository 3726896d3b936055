//! What descriptors and the names of classes mean (JVMS 4.3, 4.4.1).

ghost use Rattle.std.specs.Prelude.{◌≡◌, IfOk};
ghost use Rattle.descriptors.specs.Meaning as meaning;
ghost use Rattle.link_model.specs.Numbering as spec;

use descriptors::{DescriptorError, ElementType, Kind, Signature, field_kind, method_kind};
use items::{Items, NoMemory};
use link_resolution::is_array_name;
use opcodes::Primitive;
use std::alloc::Global;

/// The kind that the descriptor of a field means; a text that is none counts as that of int. A text of 2^32 units or more counts as
/// memory run out.
pub fn kind_of(alloc: Global, text: &[u16]) -> Result<Kind, NoMemory>
    ensures { IfOk result (λ kind. kind ≡ meaning.kind_of text.now) }
{
    if text.len() > u32::MAX as usize {
        return Err(NoMemory);
    }
    match field_kind(alloc, text) {
        Ok(kind) => Ok(kind),
        Err(DescriptorError::Bad { .. }) => Ok(Kind {
            dimensions: 0,
            element: ElementType::Int,
        }),
        Err(DescriptorError::NoMemory) => Err(NoMemory),
    }
}

/// The signature that the descriptor of a method means; a text that is none counts as that of a method without arguments and result.
/// A text of 2^32 units or more counts as memory run out.
pub fn signature_of(alloc: Global, text: &[u16]) -> Result<Signature, NoMemory>
    ensures { IfOk result (λ signature. signature ≡ meaning.signature_of text.now) }
{
    if text.len() > u32::MAX as usize {
        return Err(NoMemory);
    }
    match method_kind(alloc, text) {
        Ok(signature) => Ok(signature),
        Err(DescriptorError::Bad { .. }) => Ok(Signature {
            args: Items::new(alloc),
            result: None,
        }),
        Err(DescriptorError::NoMemory) => Err(NoMemory),
    }
}

/// The type that the constant of a class means, by its name (JVMS 4.4.1).
pub fn kind_named(alloc: Global, name: &[u16]) -> Result<Kind, NoMemory>
    ensures { IfOk result (λ kind. kind ≡ spec.kind_named name.now) }
{
    if is_array_name(name) {
        return kind_of(alloc, name);
    }
    Ok(Kind {
        dimensions: 0,
        element: ElementType::Class(Items::from(Vec::from_slice(alloc, name)?)),
    })
}

/// The array that newarray makes (JVMS 6.5).
pub fn array_of_primitive(primitive: Primitive) -> Kind
    ensures { result ≡ spec.array_of_primitive primitive }
{
    Kind {
        dimensions: 1,
        element: element_of_primitive(primitive),
    }
}

fn element_of_primitive(primitive: Primitive) -> ElementType
    ensures { result ≡ spec.element_of_primitive primitive }
{
    match primitive {
        Primitive::Boolean => ElementType::Bool,
        Primitive::Char => ElementType::Char,
        Primitive::Float => ElementType::Float,
        Primitive::Double => ElementType::Double,
        Primitive::Byte => ElementType::Byte,
        Primitive::Short => ElementType::Short,
        Primitive::Int => ElementType::Int,
        Primitive::Long => ElementType::Long,
    }
}

/// The array of such elements: one dimension more, and 255 at most.
pub fn array_of_kind(kind: Kind) -> Kind
    ensures { result ≡ spec.array_of_kind kind }
{
    Kind {
        dimensions: kind.dimensions.saturating_add(1),
        element: kind.element,
    }
}
