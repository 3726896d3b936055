//! Which classes are below others (JVMS 6.5: checkcast, instanceof), quickly where none of the two is an array class.

ghost use Rattle.std.specs.Prelude.{◌≡◌, None, IsTrue};
ghost use Rattle.link_model.specs.World.{array_type};
ghost use Rattle.link_model.specs.Worlds.{world_of};
ghost use Rattle.ref_model.specs.Classes as spec;

use class_world::World;
use link_model::class_below;
use link_tables::Tables;

// Whether a class is no array class by its number.
#[inline(always)]
fn is_plain(tables: &Tables, class: u32) -> bool
    ensures { IsTrue result → array_type tables.now class ≡ None }
{
    class < tables.name_count()
}

/// Whether the objects of a class or an array class are instances of another, in constant time.
#[inline(always)]
pub(crate) fn is_sub(world: &World, class: u32, other: u32) -> bool
    ensures { result ≡ spec.is_sub (world_of world.now) class other }
{
    let tables = world.tables();
    if is_plain(tables, class) && is_plain(tables, other) {
        return class_below(world, class, other);
    }
    world.is_sub(class, other)
}
