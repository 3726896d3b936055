//! Whether the object whose constructor runs is on a path, node by node.

ghost use Rattle.std.specs.Prelude.{◌≡◌, ◌∷◌, IfOk, IfSome, List, MatchBool, length};
ghost use Rattle.std.specs.List.{list_any};
ghost use Rattle.type_paths.specs.Paths.{Path, path};
ghost use Rattle.verify_frames.specs.Flags.{AreFlagged, HaveSameFlag};
ghost use Rattle.verify_frames.specs.PathFits.{is_this_item};

use items::NoMemory;
use stack_maps::VType;
use std::alloc::Global;
use type_paths::{Node, Paths};

// Whether a type is that of the object whose constructor runs.
fn is_this(item: Option<VType>) -> bool
    ensures { result ≡ is_this_item item }
{
    matches!(item, Some(VType::UninitThis))
}

// Whether the object is on the path of a node, which lies on one of those whose flags are known. `None`: it doesn't.
fn flag_of(flags: &[bool], top: Node) -> Option<bool>
    ensures { (ps : List Path) → AreFlagged ps flags.now
        → IfSome result (λ b. b ≡ list_any is_this_item (top.item ∷ path ps top.below)) }
{
    match flags.get(top.below as usize) {
        Some(flag) => Some(is_this(top.item) || *flag),
        None => None,
    }
}

// Whether the object is on the path of the node after those whose flags are known. `None`: there is none.
fn next_flag(paths: &Paths, flags: &[bool]) -> Option<bool>
    ensures { AreFlagged paths.now flags.now
        → IfSome result (λ b. b ≡ list_any is_this_item (path paths.now (length flags.now))) }
{
    match paths.top(flags.len()) {
        Some(top) => flag_of(flags, top),
        None => { if flags.is_empty() { Some(false) } else { None } }
    }
}

/// Whether the object is on the path, for each node, or for none if the method is no constructor.
pub fn flags_of(alloc: Global, paths: &Paths, is_constructor: bool) -> Result<Vec<bool>, NoMemory>
    ensures { IfOk result (λ v. AreFlagged paths.now v.items) }
{
    let mut flags = Vec::new(alloc);
    if !is_constructor {
        return Ok(flags);
    }
    for _ in 0..u32::MAX {
        let Some(flag) = next_flag(paths, &flags) else {
            return Ok(flags);
        };
        flags.push(flag)?;
    }
    Ok(flags)
}

/// Whether the object is known to be on both paths or on none of them. Outside of a constructor no frame has the flag.
pub fn have_same_flag(is_constructor: bool, flags: &[bool], one: usize, other: usize) -> bool
    ensures { (ps : List Path) → AreFlagged ps flags.now
        → MatchBool result (HaveSameFlag is_constructor (path ps one) (path ps other)) (Unit {0}) }
{
    if !is_constructor {
        return true;
    }
    let Some(a) = flags.get(one) else {
        return false;
    };
    let Some(b) = flags.get(other) else {
        return false;
    };
    if *a { *b } else { !*b }
}
