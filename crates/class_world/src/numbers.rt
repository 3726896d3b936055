//! How many things a linked program may have, so that each has a number.

ghost use Rattle.std.specs.Prelude.{◌≡◌, ◌<◌, IsTrue};
ghost use Rattle.std.specs.List.{list_any};
ghost use Rattle.class_world.specs.Numbers as spec;

use link_model::{MethodInfo, OBJECTS_BEFORE_STRINGS, is_synchronized};
use link_tables::Tables;

/// There are fewer classes than this, and fewer methods.
const MOST_MEMBERS: usize = 2_147_483_648;

/// There are fewer fields than this, and fewer classes and array classes that are named.
const MOST_NUMBERS: usize = 4_294_967_296;

/// With so many objects or more the heap doesn't begin.
const MOST_OBJECTS: usize = 4_000_000_000;

/// The classes whose monitor a method may hold are the first ones.
const CLASSES_WITH_MONITORS: u32 = 65_536;

// Whether a static method holds the monitor of a class past the first ones.
fn has_far_monitor(method: &MethodInfo) -> bool
    ensures { result ≡ spec.has_far_monitor method.now }
{
    method.is_static() && is_synchronized(method) && method.class >= CLASSES_WITH_MONITORS
}

fn have_far_monitors(methods: &[MethodInfo]) -> bool
    ensures { result ≡ list_any spec.has_far_monitor methods.now }
{
    methods.iter().any(|method| has_far_monitor(method))
}

// Whether the objects with which the heap begins have numbers.
fn has_few_objects(tables: &Tables) -> bool
    ensures { IsTrue result → spec.opening_count tables.now < 4000000000 }
{
    (tables.strings().count() as usize) < MOST_OBJECTS - OBJECTS_BEFORE_STRINGS as usize - 1
}

/// Whether the program has no more of each kind of thing than there are numbers.
pub(crate) fn has_numbers(tables: &Tables) -> bool
    ensures { IsTrue result → spec.HasNumbers tables.now }
{
    tables.hierarchy().classes().files().len() < MOST_MEMBERS
        && tables.methods().len() < MOST_MEMBERS
        && tables.fields().len() < MOST_NUMBERS
        && tables.arrays().len() < MOST_NUMBERS - tables.name_count() as usize
        && has_few_objects(tables)
        && !have_far_monitors(tables.methods())
}
