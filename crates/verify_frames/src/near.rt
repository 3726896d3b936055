//! Frames of the stack map whose local variables are those of another frame but for a few.

ghost use Rattle.std.specs.Prelude.{◌≡◌, ◌++◌, IfOk, IfSome, OnOk};
ghost use Rattle.type_paths.specs.Paths.{IsAbove, path};
ghost use Rattle.verify_frames.specs.Near.{Covers, Moves, Unsets, adding, merged, slots_at};

use crate::overwritten::{Overwritten, is_noted};
use instruction_rows::is_wide;
use items::NoMemory;
use stack_maps::VType;
use std::alloc::{AllocError, Global};
use type_paths::Paths;

// Adds the slots of a type, the first of this number.
fn add_type(types: &mut Vec<Overwritten>, slot: u32, t: VType) -> Result<(), AllocError>
    ensures { OnOk result (types.new.items ≡ types.old.items ++ slots_at slot t) }
{
    let slot = slot as usize;
    types.push(Overwritten { slot, was: t })?;
    if is_wide(t) {
        types.push(Overwritten {
            slot: slot + 1,
            was: VType::Top,
        })?;
    }
    Ok(())
}

// The slots of the types of a path from another node on. `None`: one of the types isn't known, or the other node isn't on the path.
fn types_above(
    alloc: Global,
    paths: &Paths,
    from: usize,
    until: usize,
) -> Result<Option<Vec<Overwritten>>, NoMemory>
    ensures { IfOk result (λ o. IfSome o (λ v.
        Covers (path paths.now from) (path paths.now until) v.items)) }
{
    let mut types = Vec::new(alloc);
    let mut node = from;
    while node != until {
        let Some(top) = paths.top(node) else {
            return Ok(None);
        };
        let Some(t) = top.item else {
            return Ok(None);
        };
        let Some(slot) = paths.slots(top.below as usize) else {
            return Ok(None);
        };
        add_type(&mut types, slot, t)?;
        node = top.below as usize;
    }
    Ok(Some(types))
}

// Adds the slots from one on and before another, which are unset.
fn add_unset(types: &mut Vec<Overwritten>, from: u32, until: u32) -> Result<(), AllocError>
    ensures { OnOk result (Unsets types.old.items types.new.items from until) }
{
    for slot in from..until {
        types.push(Overwritten {
            slot: slot as usize,
            was: VType::Top,
        })?;
    }
    Ok(())
}

// Adds what was overwritten, unless the slot is among these.
fn add_other(types: &mut Vec<Overwritten>, o: Overwritten) -> Result<(), AllocError>
    ensures { OnOk result (types.new.items ≡ adding types.old.items o) }
{
    if is_noted(types, o.slot) {
        return Ok(());
    }
    types.push(o)?;
    Ok(())
}

// Adds all that was overwritten, where the slot isn't among these.
fn add_others(types: &mut Vec<Overwritten>, overwritten: &[Overwritten]) -> Result<(), AllocError>
    ensures { OnOk result (types.new.items ≡ merged types.old.items overwritten.now) }
{
    let mut rest = overwritten;
    while let Some((o, others)) = rest.split_first() {
        add_other(types, *o)?;
        rest = others;
    }
    Ok(())
}

/// What local variables have overwritten of one path, given what they have overwritten of another that shares a node with it.
/// `None`: not found.
pub fn moved(
    alloc: Global,
    paths: &Paths,
    max_locals: u16,
    from: usize,
    to: usize,
    overwritten: &[Overwritten],
) -> Result<Option<Vec<Overwritten>>, NoMemory>
    ensures { IfOk result (λ o. IfSome o (λ v. Moves max_locals
        (path paths.now from) (path paths.now to) overwritten.now v.items)) }
{
    let Some(until) = paths.common(from, to) else {
        return Ok(None);
    };
    let Some(had) = paths.slots(from) else {
        return Ok(None);
    };
    let Some(has) = paths.slots(to) else {
        return Ok(None);
    };
    if had > u32::from(max_locals) {
        return Ok(None);
    }
    if has > u32::from(max_locals) {
        return Ok(None);
    }
    let Some(types) = types_above(alloc, paths, to, until)? else {
        return Ok(None);
    };
    let mut types = types;
    add_unset(&mut types, has, had)?;
    add_others(&mut types, overwritten)?;
    Ok(Some(types))
}
