//! The texts of a constant pool (JVMS 4.4.7). While the pool is read, their units lie one after the other in one vector;
//! in the end each text is a slice of it.

ghost use Rattle.std.specs.Prelude.{◌≡◌, ◌<◌, ◌≤◌, ◌+◌, ◌-◌, ◌++◌, ◌^◌, [], ◌∷◌, length, take, drop, OnOk};
ghost use Rattle.class_file.specs.Texts as spec;
ghost use Rattle.class_file.specs.Texts.{Divides, HasUnits};

use class_model::Const;
use shared_slices::SharedVec;
use std::alloc::{AllocError, Global};

/// An entry of the pool as it is read.
#[derive(Drop)]
pub enum Entry {
    /// A text, whose units were appended to those of the texts before it.
    Text,
    Other(Const),
}

impl Entry {
    /// Whether the constant takes two entries (JVMS 4.4.5).
    pub fn is_wide(&self) -> bool
        ensures { result ≡ spec.is_wide_entry self.now }
    {
        matches!(self, Entry::Other(Const::Long(_) | Const::Double(_)))
    }
}

/// Which constant is a text, and how many units it has.
#[derive(Clone, Copy)]
pub struct Mark {
    pub index: u16,
    pub len: u16,
}

/// Appends an entry. A text is marked, and its units are those from the index `before` on.
pub fn push_entry(
    constants: &mut Vec<Const>,
    marks: &mut Vec<Mark>,
    entry: Entry,
    units: &[u16],
    before: usize,
) -> Result<(), AllocError>
    requires start { before ≤ length units.now }
    requires few { HasUnits entry (length units.now - before) }
    requires narrow { length constants.now.items < 2 ^ 16 }
    requires divides { Divides marks.now.items before (length constants.now.items) }
    ensures constants { OnOk result (spec.with_texts marks.new.items units.now constants.new.items
        ≡ spec.with_texts marks.old.items (take before units.now) constants.old.items
        ++ spec.constant_of (drop before units.now) entry ∷ []) }
    ensures divides { OnOk result
        (Divides marks.new.items (length units.now) (length constants.new.items)) }
    ensures count { OnOk result (length constants.new.items ≡ length constants.old.items + 1) }
{
    match entry {
        Entry::Text => {
            let index = constants.len() as u16;
            let len = (units.len() - before) as u16;
            marks.push(Mark { index, len })?;
            constants.push(Const::Unused)?;
        }
        Entry::Other(constant) => constants.push(constant)?,
    }
    Ok(())
}

/// Gives each constant that is marked its slice of the units.
pub fn place_texts(
    alloc: Global,
    constants: &mut Vec<Const>,
    marks: &[Mark],
    units: Vec<u16>,
) -> Result<(), AllocError>
    requires { Divides marks.now (length units.items) (length constants.now.items) }
    ensures { OnOk result
        (constants.new.items ≡ spec.with_texts marks.now units.items constants.old.items) }
{
    let whole = SharedVec::new(alloc, units)?;
    let mut start = 0;
    let mut left = marks;
    while let [mark, others @ ..] = left {
        let len = usize::from(mark.len);
        constants[usize::from(mark.index)] = Const::Utf8(whole.slice(start, len)?);
        start += len;
        left = others;
    }
    Ok(())
}
