//! Whether two constants are the same.

ghost use Rattle.std.specs.Prelude.{◌≡◌};
ghost use Rattle.std.specs.Bool.{Decides};
ghost use Rattle.class_equality.specs.Constants as spec;

use crate::same::Same;
use class_model::Const;

/// The numbers of a constant; those that it hasn't are 0. The tag tells its kind.
#[derive(Clone, Copy, PartialEq, Eq)]
struct Numbers {
    tag: u8,
    int: i32,
    long: i64,
    bits: u64,
    first: u16,
    second: u16,
}

// Of a constant that has only a tag.
fn tagged(tag: u8) -> Numbers
    ensures { result ≡ spec.tagged tag }
{
    Numbers {
        tag,
        int: 0,
        long: 0,
        bits: 0,
        first: 0,
        second: 0,
    }
}

fn with_bits(tag: u8, bits: u64) -> Numbers
    ensures { result ≡ spec.with_bits tag bits }
{
    Numbers {
        bits,
        ..tagged(tag)
    }
}

fn with_index(tag: u8, first: u16) -> Numbers
    ensures { result ≡ spec.with_indexes tag first 0 }
{
    with_indexes(tag, first, 0)
}

fn with_indexes(tag: u8, first: u16, second: u16) -> Numbers
    ensures { result ≡ spec.with_indexes tag first second }
{
    Numbers {
        first,
        second,
        ..tagged(tag)
    }
}

fn numbers_of(constant: &Const) -> Numbers
    ensures { result ≡ spec.numbers_of constant.now }
{
    match constant {
        Const::Unused => tagged(0),
        Const::Utf8(_) => tagged(1),
        Const::Integer(n) => Numbers {
            int: *n,
            ..tagged(3)
        },
        Const::Float(bits) => with_bits(4, *bits as u64),
        Const::Long(n) => Numbers {
            long: *n,
            ..tagged(5)
        },
        Const::Double(bits) => with_bits(6, *bits),
        Const::Class(name) => with_index(7, *name),
        Const::Text(text) => with_index(8, *text),
        Const::Fieldref(class, member) => with_indexes(9, *class, *member),
        Const::Methodref(class, member) => with_indexes(10, *class, *member),
        Const::InterfaceMethodref(class, member) => with_indexes(11, *class, *member),
        Const::NameAndType(name, descriptor) => with_indexes(12, *name, *descriptor),
        Const::MethodHandle(kind, member) => with_indexes(15, *kind as u16, *member),
        Const::MethodType(descriptor) => with_index(16, *descriptor),
        Const::Dynamic(method, member) => with_indexes(17, *method, *member),
        Const::InvokeDynamic(method, member) => with_indexes(18, *method, *member),
        Const::Module(name) => with_index(19, *name),
        Const::Package(name) => with_index(20, *name),
    }
}

// The text of a constant that has one.
fn units_of(constant: &Const) -> &[u16]
    ensures { result.now ≡ spec.units_of constant.now }
{
    match constant {
        Const::Utf8(units) => units.as_slice(),
        _ => &[],
    }
}

fn same_numbers(left: Numbers, right: Numbers) -> bool
    ensures { Decides result (left ≡ right) }
{
    left == right
}

impl Same for Const {
    fn is_same(&self, other: &Self) -> bool {
        same_numbers(numbers_of(self), numbers_of(other)) && units_of(self) == units_of(other)
    }
}
