//! Which classes and array classes are below others (JVMS 6.5: checkcast, instanceof, aastore).

ghost use Rattle.std.specs.Prelude.{◌≡◌};
ghost use Rattle.link_model.specs.Subtypes as spec;
ghost use Rattle.link_model.specs.Worlds.{world_of};

use crate::World;
use link_model::{ArrayType, class_below, is_array_super, same_primitive};
use stack_maps::Base;

// Whether the last elements of an array are below those of another.
fn base_below(world: &World, a: Base, b: Base) -> bool
    ensures { result ≡ spec.base_below (world_of world.now) a b }
{
    match b {
        Base::Class(to) => match a {
            Base::Class(from) => class_below(world, from, to),
            _ => false,
        },
        _ => same_primitive(a, b),
    }
}

// A class as the type of its objects: one that is no array class has no dimensions.
fn type_of(world: &World, class: u32) -> ArrayType
    ensures { result ≡ spec.type_of (world_of world.now) class }
{
    match world.tables().array_type(class) {
        Some(array) => array,
        None => ArrayType {
            dimensions: 0,
            base: Base::Class(class),
        },
    }
}

// Whether the objects of a type are instances of another.
fn type_below(world: &World, a: ArrayType, b: ArrayType) -> bool
    ensures { result ≡ spec.type_below (world_of world.now) a b }
{
    if a.dimensions == b.dimensions {
        base_below(world, a.base, b.base)
    } else {
        b.dimensions < a.dimensions && is_array_super(world, b.base)
    }
}

/// Whether the objects of a class or an array class are instances of another, in constant time.
pub(crate) fn is_sub(world: &World, a: u32, b: u32) -> bool
    ensures { result ≡ spec.is_sub (world_of world.now) a b }
{
    type_below(world, type_of(world, a), type_of(world, b))
}

/// Whether the objects of a class or an array class are of a type, in constant time. A class that is no array class has no dimensions.
pub(crate) fn is_of_type(world: &World, class: u32, kind: ArrayType) -> bool
    ensures { result ≡ spec.type_below (world_of world.now)
        (spec.type_of (world_of world.now) class) kind }
{
    type_below(world, type_of(world, class), kind)
}
