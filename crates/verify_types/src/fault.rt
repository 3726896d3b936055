use crate::VerifyWhy;

/// What is wrong in the code of a method: the pc of an instruction or of a frame of the stack map, and why.
#[derive(Clone, Copy)]
pub struct PcFault {
    pub pc: u32,
    pub why: VerifyWhy,
}

/// Where a program is not well typed first, and why: a class and a method by their numbers in the world, and the pc of an
/// instruction or of a frame of the stack map.
#[derive(Clone, Copy, Debug, PartialEq, Eq)]
pub struct VerifyFault {
    pub class: u32,
    pub method: u32,
    pub pc: u32,
    pub why: VerifyWhy,
}
