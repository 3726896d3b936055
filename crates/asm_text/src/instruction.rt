//! The operands of an instruction, as its line has them.

use crate::line::Name;
use items::Items;

/// The words after the name of an instruction.
#[derive(Drop)]
pub enum Operands {
    Nothing,
    Byte(i8),
    Short(i16),
    Constant(Constant),
    /// The number of a local variable.
    Local(u16),
    /// The number of a local variable, and what is added to it.
    Increment(u16, i16),
    /// The label of a branch's target.
    Branch(Name),
    /// The labels of the values from `low` on, and the one of all other values.
    Table {
        low: i32,
        labels: Items<Name>,
        default: Name,
    },
    /// The labels of some values, and the one of all other values.
    Lookup {
        cases: Items<Case>,
        default: Name,
    },
    Member {
        class: Name,
        name: Name,
        descriptor: Name,
    },
    Class(Name),
    /// The type of the elements of a new array.
    Element(Element),
    /// The class of a new array of arrays, and how many of its dimensions are made.
    Dimensions(Name, u8),
}

/// A value of a lookup, and its label.
#[derive(Drop)]
pub struct Case {
    pub value: i32,
    pub label: Name,
}

/// A constant of the pool, by its value.
#[derive(Drop)]
pub enum Constant {
    Int(i32),
    Long(i64),
    Text(Name),
}

/// The primitive types that an array can have here.
#[derive(Clone, Copy)]
pub enum Element {
    Boolean,
    Char,
    Byte,
    Short,
    Int,
    Long,
}

/// Which operands an instruction has.
#[derive(Clone, Copy)]
pub enum OperandKind {
    Nothing,
    Byte,
    Short,
    Constant,
    Local,
    Increment,
    Branch,
    Table,
    Lookup,
    Member,
    Class,
    Element,
    Dimensions,
}
