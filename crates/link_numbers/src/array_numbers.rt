//! The numbers of array types.

ghost use Rattle.std.specs.Prelude.{◌≡◌, ◌++◌, ◌+◌, ◌<◌, ◌^◌, length, take, get_or, OnOk, IfOk};
ghost use Rattle.std.specs.List.{sum};
ghost use Rattle.link_model.specs.Numbering as spec;
ghost use Rattle.link_numbers.specs.ArrayTypes as types;
ghost use Rattle.link_numbers.specs.Starts.{starts_of};

use crate::kinds::kind_of;
use crate::names::Names;
use crate::numbering::{Numbering, element_index};
use descriptors::Kind;
use items::NoMemory;
use link_model::ArrayType;
use link_resolution::is_array_name;
use stack_maps::Base;
use std::alloc::Global;
use std::marker::Model;

/// The numbers of classes and array types. Those of the array types of each type begin at a number of their own.
#[derive(Drop)]
pub struct ArrayNumbers {
    numbering: Numbering,
    starts: Vec<u32>,
}

impl Model for ArrayNumbers {
    ghost use Rattle.link_model.specs.Numbering.{Numbering};

    ghost Value = { Numbering };

    ghost use Rattle.link_numbers.specs.Starts.{numbering_in, IsCounted};

    ghost view = { numbering_in };

    ghost invariant = { IsCounted };
}

// Where each group begins, of groups of these sizes from a number on. Numbers from 2^32 on count as memory run out.
fn starts_from(alloc: Global, first: u32, sizes: &[u8]) -> Result<Vec<u32>, NoMemory>
    ensures starts { IfOk result (λ v. v.items ≡ starts_of first sizes.now) }
    ensures few { IfOk result (λ _. first + sum sizes.now < 2 ^ 32) }
{
    let mut starts = Vec::new(alloc);
    let mut next = first;
    for size in sizes {
        starts.push(next)?;
        next = next.checked_add(u32::from(*size)).ok_or(NoMemory)?;
    }
    Ok(starts)
}

// A type that is no array, by its place among all such types.
fn base_at(index: u32) -> Base
    ensures { result ≡ spec.base_at index }
{
    match index {
        0 => Base::Bool,
        1 => Base::Byte,
        2 => Base::Char,
        3 => Base::Short,
        4 => Base::Int,
        5 => Base::Long,
        6 => Base::Float,
        7 => Base::Double,
        _ => Base::Class(index - 8),
    }
}

// The place of a type among the types that are no arrays. Floats and doubles, which have no operations here, have none.
fn place_of(base: Base) -> Option<usize>
    ensures { result ≡ types.place_of base }
{
    match base {
        Base::Bool => Some(0),
        Base::Byte => Some(1),
        Base::Char => Some(2),
        Base::Short => Some(3),
        Base::Int => Some(4),
        Base::Long => Some(5),
        Base::Float | Base::Double => None,
        Base::Class(class) => Some(8 + class as usize),
    }
}

// Adds the array types with these last elements and at most `depth` dimensions.
fn add_arrays(arrays: &mut Vec<ArrayType>, base: Base, depth: u8) -> Result<(), NoMemory>
    ensures { OnOk result (arrays.new.items ≡
        arrays.old.items ++ spec.arrays_of_base base depth) }
{
    for dimensions in 0..depth {
        arrays.push(ArrayType {
            dimensions: dimensions + 1,
            base,
        })?;
    }
    Ok(())
}

/// The array types, in the order of their numbers. Past 2^32 types memory counts as run out.
pub fn all_arrays(alloc: Global, depths: &[u8]) -> Result<Vec<ArrayType>, NoMemory>
    ensures { IfOk result (λ v. v.items ≡ spec.arrays_of depths.now) }
{
    if depths.len() > u32::MAX as usize {
        return Err(NoMemory);
    }
    let mut arrays = Vec::new(alloc);
    for (index, depth) in depths.iter().enumerate() {
        add_arrays(&mut arrays, base_at(index as u32), *depth)?;
    }
    Ok(arrays)
}

impl ArrayNumbers {
    /// The numbers of a world. Numbers from 2^32 on count as memory run out.
    pub fn new(alloc: Global, numbering: Numbering) -> Result<Self, NoMemory>
        ensures { IfOk result (λ numbers. numbers ≡ numbering) }
    {
        let first = numbering.names().count();
        let starts = starts_from(alloc, first, numbering.depths())?;
        Ok(ArrayNumbers { numbering, starts })
    }

    /// The names of classes by number.
    pub fn names(&self) -> &Names
        ensures { result.now ≡ self.now.names }
    {
        self.numbering.names()
    }

    /// How deep the arrays of each type are, by the type's place.
    pub fn depths(&self) -> &[u8]
        ensures { result.now ≡ self.now.depths }
    {
        self.numbering.depths()
    }

    // The number of the first array type of the type at an index.
    fn start(&self, index: usize) -> u32
        requires { index < length self.now.depths }
        ensures start { result ≡ length self.now.names + sum (take index self.now.depths) }
        ensures fits { result + get_or self.now.depths index 0 < 2 ^ 32 }
    {
        self.starts[index]
    }

    // The number of an array type, by the place of its elements' type and its dimensions.
    fn number_at(&self, index: usize, dimensions: u8) -> Option<u32>
        ensures { result ≡ types.number_at self.now index dimensions }
    {
        let depths = self.depths();
        if index >= depths.len() || dimensions == 0 || depths[index] < dimensions {
            return None;
        }
        Some(self.start(index) + u32::from(dimensions - 1))
    }

    /// The number of an array type. `None`: no array of such elements is as deep.
    pub fn array_number(&self, kind: &Kind) -> Option<u32>
        ensures { result ≡ spec.array_number self.now kind.now }
    {
        self.number_at(element_index(self.names(), &kind.element), kind.dimensions)
    }

    /// The number of an array type by its last elements, in constant time. `None`: no array of them is as deep, or they are floats or doubles.
    pub fn type_number(&self, array: ArrayType) -> Option<u32>
        ensures { result ≡ types.type_number self.now array }
    {
        self.number_at(place_of(array.base)?, array.dimensions)
    }

    /// The number of a class or an array class, by its name in a constant. `None`: no constant has the name.
    pub fn class_number(&self, alloc: Global, name: &[u16]) -> Result<Option<u32>, NoMemory>
        ensures { IfOk result (λ n. n ≡ spec.class_number self.now name.now) }
    {
        if is_array_name(name) {
            return Ok(self.array_number(&kind_of(alloc, name)?));
        }
        Ok(self.names().number(name))
    }
}
