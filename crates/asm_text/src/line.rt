//! What a line of assembler text says.

use crate::instruction::Operands;
use items::Items;

/// A word of the text: ASCII without spaces and line feeds, and not empty. It is the name of a class, a member or a
/// label, a descriptor, or the text of a String.
pub type Name = Items<u8>;

/// A line of assembler text.
#[derive(Drop)]
pub enum Line {
    /// An empty line or a comment, which mean nothing.
    Blank,
    Class {
        flags: Items<Flag>,
        name: Name,
    },
    Super(Name),
    Implements(Name),
    Field {
        flags: Items<Flag>,
        name: Name,
        descriptor: Name,
    },
    Method {
        flags: Items<Flag>,
        name: Name,
        descriptor: Name,
    },
    /// The greatest depth of the operand stack and the number of local variables, in slots.
    Stack {
        stack: u16,
        locals: u16,
    },
    /// The place of the instruction after it.
    Label(Name),
    /// The frame at the instruction after it.
    Frame {
        locals: Items<FrameType>,
        stack: Items<FrameType>,
    },
    /// A row of the exception table, by its labels. Without a class it catches every throwable.
    Catch {
        caught: Option<Name>,
        from: Name,
        to: Name,
        using: Name,
    },
    /// The end of a method.
    End,
    Instruction {
        opcode: u8,
        operands: Operands,
    },
}

/// A flag of a class or a member, by the word that Java has for it.
#[derive(Clone, Copy)]
pub enum Flag {
    Public,
    Private,
    Static,
    Final,
    /// Of a class alone.
    Super,
    /// Of a method alone.
    Synchronized,
    Volatile,
    Native,
    Interface,
    Abstract,
}

/// What a line with flags declares.
#[derive(Clone, Copy)]
pub enum Declared {
    Class,
    Field,
    Method,
}

/// The type of a local variable or of an operand in a frame.
#[derive(Drop)]
pub enum FrameType {
    Top,
    Int,
    Long,
    Null,
    /// The receiver of a constructor that has called no other yet.
    This,
    /// An object that has no value yet, by the label of its `new`.
    New(Name),
    /// An object, by its class.
    Ref(Name),
}
