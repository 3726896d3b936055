//! What the lines of a body say, with pcs and with indexes of the constant pool. Labels are still names.

use asm_code::Mentioned;
use asm_text::{Name, Operands};
use items::Items;

/// An instruction at its pc. Lines are counted from 1.
#[derive(Drop)]
pub struct Placed {
    pub line: u32,
    pub pc: u16,
    pub opcode: u8,
    pub mentioned: Mentioned,
    pub operands: Operands,
}

/// A type in a frame. A class is given by its index in the constant pool, and a `new` by its label.
#[derive(Drop)]
pub enum PlacedType {
    Top,
    Int,
    Long,
    Null,
    This,
    New(Name),
    Object(u16),
}

/// The frame at a pc.
#[derive(Drop)]
pub struct PlacedFrame {
    pub line: u32,
    pub pc: u16,
    pub locals: Items<PlacedType>,
    pub stack: Items<PlacedType>,
}

/// A row of the exception table, by its labels. The class is given by its index, or 0 for every throwable.
#[derive(Drop)]
pub struct PlacedRow {
    pub line: u32,
    pub from: Name,
    pub to: Name,
    pub handler: Name,
    pub catch_type: u16,
}
