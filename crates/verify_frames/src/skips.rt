//! Skips: for each node one further down its path, so that the type of a slot is found in few steps.

ghost use Rattle.std.specs.Prelude.{◌≡◌, ◌∷◌, IfOk, IfSome, List, Some, length};
ghost use Rattle.type_paths.specs.Paths.{IsAbove, Path, count_on, path};
ghost use Rattle.verify_frames.specs.Skips.{AreSkips, IsInside, IsTypeOf};

use instruction_rows::is_wide;
use items::NoMemory;
use stack_maps::VType;
use std::alloc::Global;
use type_paths::Paths;

// The skip of a node.
fn skip_at(skips: &[u32], n: usize) -> Option<usize>
    ensures { (ps : List Path) → AreSkips ps skips.now → IfSome result (IsAbove ps n) }
{
    match skips.get(n) {
        Some(skip) => Some(*skip as usize),
        None => None,
    }
}

// How many types come before a node.
fn depth_at(depths: &[u32], n: usize) -> u32 {
    match depths.get(n) {
        Some(depth) => *depth,
        None => 0,
    }
}

// Whether two skips in a row have the same length.
fn is_even(depths: &[u32], a: usize, b: usize, c: usize) -> bool {
    let near = depth_at(depths, a).saturating_sub(depth_at(depths, b));
    let far = depth_at(depths, b).saturating_sub(depth_at(depths, c));
    near == far
}

// The skip of a node that lies on this one: over both of its next skips if these have the same length.
fn skip_from(skips: &[u32], depths: &[u32], below: usize) -> usize
    ensures { (ps : List Path) → AreSkips ps skips.now → IsAbove ps below result }
{
    let Some(one) = skip_at(skips, below) else {
        return below;
    };
    let Some(two) = skip_at(skips, one) else {
        return below;
    };
    if is_even(depths, below, one, two) {
        two
    } else {
        below
    }
}

// The skip of the next node. `None`: there is no such node.
fn next_skip(paths: &Paths, skips: &[u32], depths: &[u32]) -> Option<u32>
    ensures { AreSkips paths.now skips.now
        → IfSome result (IsAbove paths.now (length skips.now)) }
{
    match paths.top(skips.len()) {
        Some(top) => {
            let skip = skip_from(skips, depths, top.below as usize);
            if skip > u32::MAX as usize {
                return None;
            }
            Some(skip as u32)
        }
        None => { if skips.is_empty() { Some(0) } else { None } }
    }
}

// The types before the next node.
fn next_depth(paths: &Paths, depths: &[u32]) -> u32 {
    match paths.top(depths.len()) {
        Some(top) => depth_at(depths, top.below as usize).saturating_add(1),
        None => 0,
    }
}

/// The skip of each node, if the paths may be long.
pub fn skips_of(alloc: Global, paths: &Paths, are_long: bool) -> Result<Vec<u32>, NoMemory>
    ensures { IfOk result (λ v. AreSkips paths.now v.items) }
{
    let mut skips = Vec::new(alloc);
    if !are_long {
        return Ok(skips);
    }
    let mut depths = Vec::new(alloc);
    for _ in 0..u32::MAX {
        let Some(skip) = next_skip(paths, &skips, &depths) else {
            return Ok(skips);
        };
        depths.push(next_depth(paths, &depths))?;
        skips.push(skip)?;
    }
    Ok(skips)
}

// A node on the path of one, with a slot on its own path: the one that is kept, or else the one below.
fn further(paths: &Paths, skips: &[u32], n: usize, below: usize, slot: u32) -> usize
    requires { AreSkips paths.now skips.now }
    ensures { IsAbove paths.now n below → IsAbove paths.now n result }
{
    let Some(skip) = skip_at(skips, n) else {
        return below;
    };
    let Some(count) = paths.slots(skip) else {
        return below;
    };
    if slot < count { skip } else { below }
}

// The type of a slot, where a path ends with this type, the first of whose slots has this number. `None`: the slot isn't one of its.
fn type_of_slot(item: VType, first: u32, slot: u32) -> Option<VType>
    ensures { (p : Path) → Some first ≡ count_on p → IfSome result (IsInside (Some item ∷ p) slot) }
{
    if slot == first {
        return Some(item);
    }
    if slot < first {
        return None;
    }
    if is_wide(item) && slot - first == 1 {
        return Some(VType::Top);
    }
    None
}

/// The type of a slot of the path of a node. `None`: it wasn't found.
pub fn type_in(paths: &Paths, skips: &[u32], from: usize, slot: u32) -> Option<VType>
    requires { AreSkips paths.now skips.now }
    ensures { IfSome result (IsTypeOf (path paths.now from) slot) }
{
    let count = paths.slots(from)?;
    if slot >= count {
        return Some(VType::Top);
    }
    let mut node = from;
    for _ in 0..u32::MAX {
        let top = paths.top(node)?;
        let below = top.below as usize;
        let first = paths.slots(below)?;
        if slot >= first {
            return type_of_slot(top.item?, first, slot);
        }
        node = further(paths, skips, node, below, slot);
    }
    None
}
