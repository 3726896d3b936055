ghost use Rattle.class_grammar.specs.declared.class_why.ClassWhy.TheVariants as whys;

use byte_reader::{Fault, Reason};
use std::fmt;

/// What is wrong with a class file (JVMS 4).
#[derive(Clone, Copy, Debug, PartialEq, Eq)]
pub enum ClassWhy {
    /// The file ends before the field does.
    Short,
    /// The first four bytes aren't `ca fe ba be`.
    Magic,
    /// The version isn't supported.
    Version,
    /// The pool has no entry 0, or there is no second entry for a Long or Double.
    Count,
    /// No constant has this tag.
    Tag,
    /// A text isn't modified UTF-8.
    Utf8,
    /// An index isn't that of a constant of the right kind.
    Index,
    /// A length isn't that of what it counts, or code is empty or too long.
    Length,
    /// A recognized attribute occurs a second time.
    Duplicate,
    /// Bytes follow the last attribute.
    Trailing,
    /// A class or member may not have this name.
    Name,
    /// A text isn't the descriptor that it should be.
    Descriptor,
    /// A method has code that it may not have, or lacks code.
    Code,
    /// A row of an exception table lies outside the code.
    Range,
    /// The file is that of a module.
    Unsupported,
}

/// The name of the variant, as the line `jvt: bad class FILE at AT: WHY` has it.
impl fmt::Display for ClassWhy {
    fn fmt<W: fmt::Write>(&self, f: &mut fmt::Formatter<W>) -> fmt::Result {
        fmt::Debug::fmt(self, f)
    }
}

/// What is wrong with a class file, and how many of its bytes were left there.
pub type ClassFault = Fault<ClassWhy>;

impl Reason for ClassWhy {
    ghost short = { whys.Short };

    fn short() -> Self {
        ClassWhy::Short
    }
}
