//! The types of local variables (JVMS 4.10.1.4), and which of them may be those of uninitialized objects.

ghost use Rattle.std.specs.Prelude.{◌≡◌, ◌<◌, ◌++◌, ◌∷◌, [], true, IfOk, List, MatchBool, MatchOption, OnErr, OnOk, length, slice_set};
ghost use Rattle.std.specs.List.{list_any};
ghost use Rattle.stack_maps.specs.declared.types.VType.{VType as OneType};
ghost use Rattle.verify_types.specs.TypeStates.{replaced};
ghost use Rattle.verify_instructions.specs.Unfinished as spec;
ghost use Rattle.verify_instructions.specs.Views.{is_object};

use crate::state::{Uninitialized, is_object};
use stack_maps::VType;
use std::alloc::{AllocError, Global};
use std::marker::Model;

// How many of the listed slots are searched before a slot is listed again.
const MOST: usize = 64;

/// The types of local variables, slot by slot, with a list of the slots that may hold an uninitialized object.
#[derive(Drop)]
pub struct Locals {
    types: Vec<VType>,
    unfinished: Vec<usize>,
}

impl Model for Locals {
    ghost use Rattle.std.specs.Prelude.{List};
    ghost use Rattle.stack_maps.specs.declared.types.VType.{VType};

    ghost Value = { List VType };

    ghost use Rattle.verify_instructions.specs.LocalTypes.{types_in, HasUnfinished};

    ghost view = { types_in };

    ghost invariant = { HasUnfinished };
}

/// Whether a type is that of an uninitialized object.
pub fn is_unfinished(t: VType) -> bool
    ensures { result ≡ spec.is_unfinished t }
{
    matches!(t, VType::UninitThis | VType::Uninit(_))
}

// Lists a slot whose type becomes that of an uninitialized object, unless it was one before.
fn list(slots: &mut Vec<usize>, slot: usize, was: VType, t: VType) -> Result<(), AllocError>
    ensures listed { OnOk result
        (slots.new.items ≡ spec.listing slot was t slots.old.items) }
    ensures same { OnErr result (slots.new.items ≡ slots.old.items) }
{
    if is_unfinished(t) && !is_unfinished(was) {
        slots.push(slot)?;
    }
    Ok(())
}

// Whether a slot is among the first that are listed.
fn is_among_first(slots: &[usize], slot: usize) -> bool
    ensures { MatchBool result (spec.is_listed slots.now slot ≡ true) (Unit {0}) }
{
    let first = slots.split_at(slots.len().min(MOST)).0;
    first.iter().any(|other| *other == slot)
}

// Lists a slot whose type becomes that of an uninitialized object, unless it is among the first that are listed.
fn list_once(slots: &mut Vec<usize>, slot: usize, was: VType, t: VType) -> Result<(), AllocError>
    ensures listed { OnOk result ((types : List OneType) → slot < length types
        → spec.type_at types slot ≡ was → spec.AreListed slots.old.items types
        → spec.AreListed slots.new.items (slice_set types slot t)) }
    ensures same { OnErr result (slots.new.items ≡ slots.old.items) }
{
    if is_among_first(slots, slot) {
        return Ok(());
    }
    list(slots, slot, was, t)?;
    Ok(())
}

// The slots of the uninitialized objects among these types.
fn unfinished_in(alloc: Global, types: &[VType]) -> Result<Vec<usize>, AllocError>
    ensures { IfOk result (λ slots. spec.AreListed slots.items types.now) }
{
    let mut slots = Vec::new(alloc);
    for slot in 0..types.len() {
        list(&mut slots, slot, VType::Top, type_at(types, slot))?;
    }
    Ok(slots)
}

// Gives the slot another type, if its type is the object's.
fn replace_at(types: &mut [VType], slot: usize, object: Uninitialized, t: VType)
    ensures { types.new ≡ spec.replaced_at (is_object object) t slot types.old }
{
    if slot >= types.len() {
        return;
    }
    if is_object(object, types[slot]) {
        types[slot] = t;
    }
}

// Gives these slots another type where theirs is the object's.
fn replace_all(types: &mut [VType], slots: &[usize], object: Uninitialized, t: VType)
    ensures { types.new ≡ spec.replaced_among (is_object object) t slots.now types.old }
{
    let mut rest = slots;
    while let Some((slot, others)) = rest.split_first() {
        replace_at(types, *slot, object, t);
        rest = others;
    }
}

// Whether one of these slots is the object's.
fn any_among(types: &[VType], slots: &[usize], object: Uninitialized) -> bool
    ensures { result ≡
        list_any (λ n. is_object object (spec.type_at types.now n)) slots.now }
{
    slots
        .iter()
        .any(|slot| is_object(object, type_at(types, *slot)))
}

// The type of a slot; that of an unset one where there is none of the number.
fn type_at(types: &[VType], slot: usize) -> VType
    ensures { result ≡ spec.type_at types.now slot }
{
    match types.get(slot) {
        Some(t) => *t,
        None => VType::Top,
    }
}

// Takes a slot that no longer exists off the list, if it stands last there.
fn unlist(slots: &mut Vec<usize>, slot: usize)
    ensures { (types : List OneType) → length types ≡ slot → spec.AreListed slots.old.items types
        → spec.AreListed slots.new.items types }
{
    let Some(last) = slots.last() else {
        return;
    };
    if *last == slot {
        slots.pop();
    }
}

impl Locals {
    /// Local variables of these types.
    pub fn new(alloc: Global, types: Vec<VType>) -> Result<Self, AllocError>
        ensures { IfOk result (λ locals. locals ≡ types.items) }
    {
        let unfinished = unfinished_in(alloc, &types)?;
        Ok(Locals { types, unfinished })
    }

    /// The types.
    pub fn as_slice(&self) -> &[VType]
        ensures { result.now ≡ self.now }
    {
        &self.types
    }

    /// Slots, among them all that hold an uninitialized object.
    pub fn unfinished(&self) -> &[usize]
        ensures { spec.AreListed result.now self.now }
    {
        &self.unfinished
    }

    /// Adds a slot after the others.
    pub fn push(&mut self, t: VType) -> Result<(), AllocError>
        ensures pushed { OnOk result (self.new ≡ self.old ++ t ∷ []) }
        ensures same { OnErr result (self.new ≡ self.old) }
    {
        list(&mut self.unfinished, self.types.len(), VType::Top, t)?;
        self.types.push(t)?;
        Ok(())
    }

    /// Takes the last slot. `None`: there is none.
    pub fn pop(&mut self) -> Option<VType>
        ensures { MatchOption result ((self.old ≡ []) × (self.new ≡ []))
            (λ t. self.old ≡ self.new ++ t ∷ []) }
    {
        let Some(t) = self.types.pop() else {
            return None;
        };
        let slot = self.types.len();
        unlist(&mut self.unfinished, slot);
        Some(t)
    }

    /// Whether one of them is the object.
    pub fn has(&self, object: Uninitialized) -> bool
        ensures { result ≡ list_any (is_object object) self.now }
    {
        any_among(&self.types, &self.unfinished, object)
    }

    /// Writes the type of a slot, if there is one of the number.
    pub fn set(&mut self, n: usize, t: VType) -> Result<(), AllocError>
        ensures { OnOk result (self.new ≡ slice_set self.old n t) }
    {
        if n >= self.types.len() {
            return Ok(());
        }
        list_once(&mut self.unfinished, n, type_at(&self.types, n), t)?;
        self.types[n] = t;
        Ok(())
    }

    /// Makes the local variable of a number unset, if there is one.
    pub fn unset(&mut self, n: usize)
        ensures { self.new ≡ slice_set self.old n VType.Top }
    {
        if n < self.types.len() {
            self.types[n] = VType::Top;
        }
    }

    /// Gives those that are the object another type.
    pub fn replace(&mut self, object: Uninitialized, t: VType)
        ensures { self.new ≡ replaced (is_object object) t self.old }
    {
        replace_all(self.types.as_mut_slice(), &self.unfinished, object, t);
    }
}
