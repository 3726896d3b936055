//! Why a program does not link.

use std::fmt;

/// Why a program does not link (JVMS 5.3, 5.4). Of several reasons at one place of a class the first in
/// this order is named.
#[derive(Clone, Copy, Debug, PartialEq, Eq)]
pub enum LinkWhy {
    /// An earlier class has the same name, or an earlier member of the class has the same name and descriptor (JVMS 4.5, 4.6).
    Duplicate,
    /// A class that is named isn't in the program (JVMS 5.3).
    MissingClass,
    /// A class is among its own superclasses or superinterfaces (JVMS 5.3.5).
    Cycle,
    /// A class or a member isn't of the kind that is wanted: a class for an interface, a static member for one of instances, an
    /// abstract class for one that is instantiated (JVMS 5.3.5, 5.4.3, 6.5).
    WrongKind,
    /// The superclass is final, or a method overrides a final one (JVMS 4.10, 5.3.5).
    FinalParent,
    /// A method of a file is native.
    Native,
    /// The code is no list of instructions, or an instruction names a constant of the wrong kind (JVMS 4.9.1).
    BadCode,
    /// A field isn't found (JVMS 5.4.3.2).
    MissingField,
    /// A method isn't found (JVMS 5.4.3.3, 5.4.3.4).
    MissingMethod,
    /// What this machine leaves out.
    Unsupported,
}

/// The name of the variant, as the line `jvt: link CLASS: WHY` has it.
impl fmt::Display for LinkWhy {
    fn fmt<W: fmt::Write>(&self, f: &mut fmt::Formatter<W>) -> fmt::Result {
        fmt::Debug::fmt(self, f)
    }
}
