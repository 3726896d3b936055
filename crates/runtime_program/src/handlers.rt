//! Which handler catches an exception (JVMS 2.10).

ghost use Rattle.std.specs.Prelude.{◌≡◌, true, find, get_or};
ghost use Rattle.std.specs.Option.{option_map, option_map_or};
ghost use Rattle.link_model.specs.Subtypes.{is_sub};
ghost use Rattle.link_model.specs.Worlds.{world_of};
ghost use Rattle.verify_types.specs.Environment.{with_catches};
ghost use Rattle.ref_model.specs.Throwing.{catches as does_catch};
ghost use Rattle.runtime_program.specs.Handlers.{handler_pc, handler_with};

use class_model::Row;
use class_world::World;

// What the row at an index catches.
fn catch_at(catches: &[Option<u32>], i: usize) -> Option<u32>
    ensures { result ≡ get_or catches.now i None }
{
    match catches.get(i) {
        Some(catch) => *catch,
        None => None,
    }
}

// Whether objects of a class are among what a row catches.
fn is_caught(world: &World, class: u32, catch: Option<u32>) -> bool
    ensures { result ≡ option_map_or (is_sub (world_of world.now) class) catch true }
{
    match catch {
        Some(other) => world.is_sub(class, other),
        None => true,
    }
}

// Whether a row catches an object of a class at a pc.
fn catches(world: &World, pc: u32, class: u32, row: &Row, catch: Option<u32>) -> bool
    ensures { result ≡ does_catch (world_of world.now) pc class (handler_with row.now catch) }
{
    u32::from(row.start) <= pc && pc < u32::from(row.end) && is_caught(world, class, catch)
}

/// The handler of the first row that catches an object of a class at a pc.
pub(crate) fn handler_in(
    world: &World,
    rows: &[Row],
    caught: &[Option<u32>],
    pc: u32,
    class: u32,
) -> Option<u16>
    ensures { result ≡ option_map handler_pc
        (find (does_catch (world_of world.now) pc class) (with_catches rows.now caught.now)) }
{
    for (i, row) in rows.iter().enumerate() {
        if catches(world, pc, class, row, catch_at(caught, i)) {
            return Some(row.handler);
        }
    }
    None
}
