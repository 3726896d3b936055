//! Whether two class files are the same.

ghost use Rattle.std.specs.Prelude.{◌≡◌};
ghost use Rattle.std.specs.Bool.{Decides};

use crate::same::{Same, are_same};
use class_model::{ClassFile, Member};

impl Same for Member {
    fn is_same(&self, other: &Self) -> bool {
        self.flags == other.flags
            && self.name == other.name
            && self.descriptor == other.descriptor
            && are_same(&self.attributes, &other.attributes)
    }
}

// Whether version, flags, class and superclass are the same.
fn is_same_head(left: &ClassFile, right: &ClassFile) -> bool
    ensures { Decides result ((left.now.minor ≡ right.now.minor)
        × (left.now.major ≡ right.now.major)
        × (left.now.flags ≡ right.now.flags) × (left.now.own ≡ right.now.own)
        × (left.now.parent ≡ right.now.parent)) }
{
    left.minor == right.minor
        && left.major == right.major
        && left.flags == right.flags
        && left.own == right.own
        && left.parent == right.parent
}

/// Whether two class files are the same value.
pub fn is_same_file(left: &ClassFile, right: &ClassFile) -> bool
    ensures { Decides result (left.now ≡ right.now) }
{
    is_same_head(left, right)
        && are_same(&left.pool, &right.pool)
        && left.interfaces.as_slice() == right.interfaces.as_slice()
        && are_same(&left.fields, &right.fields)
        && are_same(&left.methods, &right.methods)
        && are_same(&left.attributes, &right.attributes)
}
