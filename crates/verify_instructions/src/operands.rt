//! Operands by their types (JVMS 4.10.1.4).

ghost use Rattle.std.specs.Prelude.{◌≡◌, [], ◌∷◌, reverse};
ghost use Rattle.std.specs.Prelude.{map};
ghost use Rattle.verify_types.specs.Operands as spec;
ghost use Rattle.verify_instructions.specs.Answers.{Leaves, Takes};

use crate::stop::Stop;
use crate::types::Types;
use instruction_rows::{RowWhy, kind_of_type};
use link_model::Lookups;
use opcodes::{Element, ValueKind};
use stack_maps::{Base, VType};
use verify_types::assignable;

impl Types {
    /// Takes a value that is assignable to this type.
    pub fn pop_wanted<L: Lookups>(&mut self, w: &L, t: VType) -> Result<(), Stop>
        ensures popped { Leaves result self.new.stack
            (spec.wanted (L.world w.now) t self.old.stack) }
        ensures locals { self.new.locals ≡ self.old.locals }
    {
        let Some(kind) = kind_of_type(t) else {
            return Err(Stop::Broken(RowWhy::Kind));
        };
        let found = self.pop_kind(kind)?;
        if assignable(w, found, t) {
            Ok(())
        } else {
            Err(Stop::Broken(RowWhy::Kind))
        }
    }

    /// Takes an array with such elements.
    pub fn pop_array(&mut self, element: Element) -> Result<VType, Stop>
        ensures popped { Takes result self.new.stack (spec.array_popped element self.old.stack) }
        ensures locals { self.new.locals ≡ self.old.locals }
    {
        let array = self.pop_kind(ValueKind::Reference)?;
        if serves(element, array) {
            Ok(array)
        } else {
            Err(Stop::Broken(RowWhy::Kind))
        }
    }
}

/// Whether the type is that of an array or of null.
pub fn is_array(t: VType) -> bool
    ensures { result ≡ spec.is_array t }
{
    match t {
        VType::Null => true,
        VType::Named(n, _) => n > 0,
        _ => false,
    }
}

// Whether an array instruction serves for elements of this base.
fn is_element(element: Element, base: Base) -> bool
    ensures { result ≡ spec.is_element element base }
{
    match element {
        Element::Int => matches!(base, Base::Int),
        Element::Long => matches!(base, Base::Long),
        Element::Reference => matches!(base, Base::Class(_)),
        Element::Byte => matches!(base, Base::Byte | Base::Bool),
        Element::Char => matches!(base, Base::Char),
        Element::Short => matches!(base, Base::Short),
    }
}

fn is_reference_element(element: Element) -> bool
    ensures { result ≡ spec.is_reference_element element }
{
    matches!(element, Element::Reference)
}

// Whether an array instruction serves for arrays of this type.
fn serves(element: Element, t: VType) -> bool
    ensures { result ≡ spec.serves element t }
{
    match t {
        VType::Null => true,
        VType::Named(n, base) => {
            (n == 1 && is_element(element, base)) || (n > 1 && is_reference_element(element))
        }
        _ => false,
    }
}
