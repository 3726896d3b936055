//! The types of an operand stack, and the uninitialized objects on it (JVMS 4.10.1.4).

ghost use Rattle.std.specs.Prelude.{◌≡◌, ℕ, ◌∷◌, [], IfOk, MatchBool, MatchOption, OnOk, get_or, length, reverse, true, false};
ghost use Rattle.std.specs.List.{list_any};
ghost use Rattle.verify_types.specs.TypeStates.{is_new, replaced};
ghost use Rattle.verify_instructions.specs.Marks.{AreMarked};
ghost use Rattle.verify_instructions.specs.Views.{is_object};

use crate::locals::Locals;
use crate::state::Uninitialized;
use stack_maps::VType;
use std::alloc::{AllocError, Global};
use std::marker::Model;

// With fewer uninitialized objects, a search through them costs less than marks.
const MANY: usize = 64;

/// The types of an operand stack, slot by slot, with marks by which an uninitialized object is found at once.
#[derive(Drop)]
pub struct OperandStack {
    types: Locals,
    // For each pc, once objects are marked: whether an object of the `new` there may be on the stack.
    made: Vec<bool>,
    are_marked: bool,
}

impl Model for OperandStack {
    ghost use Rattle.std.specs.Prelude.{List};
    ghost use Rattle.stack_maps.specs.declared.types.VType.{VType};

    ghost Value = { List VType };

    ghost use Rattle.verify_instructions.specs.StackTypes.{types_in, IsMarked};

    // The top comes first.
    ghost view = { types_in };

    ghost invariant = { IsMarked };
}

// Marks the pc of the `new` whose object a type is.
fn mark(made: &mut Vec<bool>, t: VType) -> Result<(), AllocError>
    ensures kept { (pc : ℕ) → get_or made.old.items pc false ≡ true
        → get_or made.new.items pc false ≡ true }
    ensures marked { OnOk result ((pc : ℕ) → is_new pc t ≡ true
        → get_or made.new.items pc false ≡ true) }
{
    let VType::Uninit(pc) = t else {
        return Ok(());
    };
    let place = usize::from(pc);
    if made.len() <= place {
        made.resize(place + 1, false)?;
    }
    if place < made.len() {
        made[place] = true;
    }
    Ok(())
}

// Marks the pcs of all objects among these types.
fn mark_all(made: &mut Vec<bool>, types: &[VType]) -> Result<(), AllocError>
    ensures { OnOk result (AreMarked types.now made.new.items) }
{
    for t in types {
        mark(made, *t)?;
    }
    Ok(())
}

// Marks the pc of the `new` whose object a type is, if they are marked.
fn mark_where(are_marked: bool, made: &mut Vec<bool>, t: VType) -> Result<(), AllocError>
    ensures kept { (pc : ℕ) → get_or made.old.items pc false ≡ true
        → get_or made.new.items pc false ≡ true }
    ensures marked { OnOk result (are_marked ≡ true → (pc : ℕ) → is_new pc t ≡ true
        → get_or made.new.items pc false ≡ true) }
{
    if !are_marked {
        return Ok(());
    }
    mark(made, t)?;
    Ok(())
}

// Whether an object of the `new` at a pc may be on the stack.
fn is_marked(made: &[bool], pc: u16) -> bool
    ensures { result ≡ get_or made.now pc false }
{
    match made.get(usize::from(pc)) {
        Some(mark) => *mark,
        None => false,
    }
}

impl OperandStack {
    /// A stack of these types, its top the last.
    pub fn new(alloc: Global, types: Vec<VType>) -> Result<Self, AllocError>
        ensures { IfOk result (λ stack. stack ≡ reverse types.items) }
    {
        let types = Locals::new(alloc, types)?;
        Ok(OperandStack {
            types,
            made: Vec::new(alloc),
            are_marked: false,
        })
    }

    /// The types, the top the last.
    pub fn as_slice(&self) -> &[VType]
        ensures { reverse result.now ≡ self.now }
    {
        self.types.as_slice()
    }

    /// How many slots there are.
    pub fn len(&self) -> usize
        ensures { result ≡ length self.now }
    {
        self.types.as_slice().len()
    }

    // Marks the pcs of all objects, if there are many.
    fn mark_many(&mut self) -> Result<(), AllocError>
        ensures { self.new ≡ self.old }
    {
        if self.are_marked {
            return Ok(());
        }
        if self.types.unfinished().len() < MANY {
            return Ok(());
        }
        mark_all(&mut self.made, self.types.as_slice())?;
        self.are_marked = true;
        Ok(())
    }

    /// Puts a type on top.
    pub fn push(&mut self, t: VType) -> Result<(), AllocError>
        ensures { OnOk result (self.new ≡ t ∷ self.old) }
    {
        self.mark_many()?;
        self.put(t)
    }

    // Puts a type on top, and marks the object that it is.
    fn put(&mut self, t: VType) -> Result<(), AllocError>
        ensures { OnOk result (self.new ≡ t ∷ self.old) }
    {
        mark_where(self.are_marked, &mut self.made, t)?;
        self.types.push(t)?;
        Ok(())
    }

    /// Takes the top. `None`: there is none.
    pub fn pop(&mut self) -> Option<VType>
        ensures { MatchOption result (self.old ≡ []) (λ t. self.old ≡ t ∷ self.new) }
    {
        match self.types.pop() {
            Some(t) => Some(t),
            None => None,
        }
    }

    // Whether the object is known not to be on the stack.
    fn is_absent(&self, object: Uninitialized) -> bool
        ensures { MatchBool result (list_any (is_object object) self.now ≡ false) (Unit {0}) }
    {
        let Uninitialized::New(pc) = object else {
            return false;
        };
        if !self.are_marked {
            return false;
        }
        if is_marked(&self.made, pc) {
            return false;
        }
        true
    }

    /// Whether the object is on the stack.
    pub fn has(&self, object: Uninitialized) -> bool
        ensures { result ≡ list_any (is_object object) self.now }
    {
        if self.is_absent(object) {
            return false;
        }
        self.types.has(object)
    }

    /// Gives those that are the object another type.
    pub fn replace(&mut self, object: Uninitialized, t: VType) -> Result<(), AllocError>
        ensures { OnOk result (self.new ≡ replaced (is_object object) t self.old) }
    {
        mark_where(self.are_marked, &mut self.made, t)?;
        self.types.replace(object, t);
        Ok(())
    }
}
