//! Descriptors of fields and methods (JVMS 4.3).

use crate::ascii;
use descriptors::{
    DescriptorError, ElementType, Kind, Signature, field_kind, is_field_descriptor,
    is_method_descriptor, method_kind,
};
use std::alloc::{AllocError, Global};
use std::test::Fail;

// The units of so many ASCII letters between two ASCII texts.
fn units_of(
    alloc: Global,
    before: &str,
    count: usize,
    letter: u8,
    after: &str,
) -> Result<Vec<u16>, AllocError> {
    let mut units = ascii::units_of(alloc, before.as_bytes())?;
    for _ in 0..count {
        units.push(u16::from(letter))?;
    }
    ascii::append(&mut units, after.as_bytes())?;
    Ok(units)
}

fn field(alloc: Global, units: &[u16]) -> Result<Kind, DescriptorError> {
    if units.len() > 0xffff {
        return Err(DescriptorError::NoMemory);
    }
    field_kind(alloc, units)
}

fn method(alloc: Global, units: &[u16]) -> Result<Signature, DescriptorError> {
    if units.len() > 0xffff {
        return Err(DescriptorError::NoMemory);
    }
    method_kind(alloc, units)
}

// Whether it is so many dimensions of what this letter begins.
fn is_like(kind: &Kind, dims: u8, letter: char) -> bool {
    let first = match &kind.element {
        ElementType::Byte => 'B',
        ElementType::Char => 'C',
        ElementType::Double => 'D',
        ElementType::Float => 'F',
        ElementType::Int => 'I',
        ElementType::Long => 'J',
        ElementType::Short => 'S',
        ElementType::Bool => 'Z',
        ElementType::Class(_) => 'L',
    };
    kind.dimensions == dims && first == letter
}

#[test]
fn descriptors_of_fields_are_read(rt: HostRuntime) -> Result<(), Fail> {
    let table = [
        ("B", 0, "", 0, 'B'),
        ("C", 0, "", 0, 'C'),
        ("D", 0, "", 0, 'D'),
        ("F", 0, "", 0, 'F'),
        ("I", 0, "", 0, 'I'),
        ("J", 0, "", 0, 'J'),
        ("S", 0, "", 0, 'S'),
        ("Z", 0, "", 0, 'Z'),
        ("La;", 0, "", 0, 'L'),
        ("", 1, "J", 1, 'J'),
        ("", 2, "La/b;", 2, 'L'),
        ("", 255, "I", 255, 'I'),
    ];
    for (before, count, after, dims, letter) in table.iter() {
        let units = units_of(rt.alloc(), *before, *count, b'[', *after)?;
        assert!(rt; is_field_descriptor(&units));
        let kind = field(rt.alloc(), &units).ok().ok_or("refused")?;
        assert!(rt; is_like(&kind, *dims, *letter));
    }
    Ok(())
}

#[test]
fn the_first_bad_unit_of_a_field_is_named(rt: HostRuntime) -> Result<(), Fail> {
    let table = [
        ("", 0, "", 0),
        ("", 1, "", 1),
        ("V", 0, "", 0),
        ("", 1, "V", 1),
        ("I ", 0, "", 1),
        ("L;", 0, "", 1),
        ("La", 0, "", 2),
        ("La//b;", 0, "", 3),
        ("La/;", 0, "", 3),
        ("L/a;", 0, "", 1),
        ("L[a;", 0, "", 1),
        ("La.b;", 0, "", 2),
        ("(I)V", 0, "", 0),
        ("", 256, "I", 255),
    ];
    for (before, count, after, bad) in table.iter() {
        let units = units_of(rt.alloc(), *before, *count, b'[', *after)?;
        assert!(rt; !is_field_descriptor(&units));
        assert!(rt;
            matches!(field(rt.alloc(), &units), Err(DescriptorError::Bad { at }) if at == *bad)
        );
    }
    Ok(())
}

#[test]
fn descriptors_of_methods_are_read(rt: HostRuntime) -> Result<(), Fail> {
    let units = ascii::units_of(rt.alloc(), b"(IJ[Ljava/lang/String;)[D")?;
    let signature = method(rt.alloc(), &units).ok().ok_or("refused")?;
    let name = ascii::units_of(rt.alloc(), b"java/lang/String")?;
    assert!(rt;
        match signature.args.as_slice() {
            [first, second, third] => {
                is_like(first, 0, 'I')
                    && is_like(second, 0, 'J')
                    && is_like(third, 1, 'L')
                    && match &third.element {
                        ElementType::Class(class) => class.as_slice() == name.as_slice(),
                        _ => false,
                    }
            }
            _ => false,
        }
    );
    assert!(rt;
        match &signature.result {
            Some(kind) => is_like(kind, 1, 'D'),
            None => false,
        }
    );
    Ok(())
}

// The arguments take at most 255 slots.
#[test]
fn methods_are_taken_or_the_first_bad_unit_is_named(rt: HostRuntime) -> Result<(), Fail> {
    let taken = [
        ("(", 0, ")V"),
        ("(", 255, ")V"),
        ("(", 253, "J)V"),
        ("(", 254, "[J)V"),
    ];
    for (before, ints, after) in taken.iter() {
        let units = units_of(rt.alloc(), *before, *ints, b'I', *after)?;
        assert!(rt; is_method_descriptor(&units));
        let signature = method(rt.alloc(), &units).ok().ok_or("refused")?;
        assert!(rt; matches!(signature.result, None));
    }
    let refused = [
        ("", 0, "", 0),
        ("I", 0, "", 0),
        ("(IV)V", 0, "", 2),
        ("(V)V", 0, "", 1),
        ("(I", 0, "", 2),
        ("()", 0, "", 2),
        ("()VV", 0, "", 3),
        ("()I ", 0, "", 3),
        ("([)V", 0, "", 2),
        ("()[V", 0, "", 3),
        ("(La//b;)V", 0, "", 4),
        ("(", 256, ")V", 256),
        ("(", 254, "J)V", 255),
        ("(", 255, "[J)V", 256),
    ];
    for (before, ints, after, bad) in refused.iter() {
        let units = units_of(rt.alloc(), *before, *ints, b'I', *after)?;
        assert!(rt; !is_method_descriptor(&units));
        assert!(rt;
            matches!(method(rt.alloc(), &units), Err(DescriptorError::Bad { at }) if at == *bad)
        );
    }
    Ok(())
}
