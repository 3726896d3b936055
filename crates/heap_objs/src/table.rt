//! The table of the objects of a heap: where each lies, and the number of the next.

ghost use Rattle.std.specs.Prelude.{◌≡◌, ◌<◌, vec_len, IfOk, OnOk};
ghost use Rattle.std.specs.Vec.{vec_capacity};

use items::NoMemory;

/// Where an object lies: its values from one index on in the row of values, or a String's units in the row of units. A String has no
/// class here.
#[derive(Clone, Copy)]
pub(crate) struct Entry {
    pub(crate) class: Option<u32>,
    pub(crate) start: usize,
    pub(crate) len: u32,
}

// How many values or units an object has; more than 2^32 - 1 are want of memory.
pub(crate) fn small_len(len: usize) -> Result<u32, NoMemory>
    ensures { IfOk result (λ n. n ≡ len) }
{
    match u32::try_from(len) {
        Ok(len) => Ok(len),
        Err(_) => Err(NoMemory),
    }
}

/// The most objects that have numbers; more are want of memory.
const MOST_OBJECTS: usize = 0xffff_ffff;

// Room for one more entry, and its number.
pub(crate) fn next_number(table: &mut Vec<Entry>) -> Result<u32, NoMemory>
    ensures items { table.new.items ≡ table.old.items }
    ensures len { vec_len table.new ≡ vec_len table.old }
    ensures room { OnOk result (vec_len table.new < vec_capacity table.new) }
    ensures number { IfOk result (λ o. o ≡ vec_len table.old) }
{
    let number = table.len();
    if number >= MOST_OBJECTS {
        return Err(NoMemory);
    }
    table.reserve(1)?;
    Ok(number as u32)
}
