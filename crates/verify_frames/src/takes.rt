//! Single local variables that fit those of a path.

ghost use Rattle.std.specs.Prelude.{◌≡◌, MatchBool};
ghost use Rattle.std.specs.List.{All};
ghost use Rattle.type_paths.specs.Paths.{path};
ghost use Rattle.verify_frames.specs.Skips.{AreSkips, TakesAt};

use crate::overwritten::type_at;
use crate::skips::type_in;
use link_model::Lookups;
use stack_maps::VType;
use type_paths::Paths;
use verify_types::assignable;

// Whether a local variable fits that of a path.
fn takes_at<L: Lookups>(
    w: &L,
    paths: &Paths,
    skips: &[u32],
    from: usize,
    locals: &[VType],
    slot: usize,
) -> bool
    requires { AreSkips paths.now skips.now }
    ensures { MatchBool result
        (TakesAt (L.world w.now) (path paths.now from) locals.now slot) (Unit {0}) }
{
    if slot > u32::MAX as usize {
        return false;
    }
    let Some(t) = type_in(paths, skips, from, slot as u32) else {
        return false;
    };
    if !assignable(w, type_at(locals, slot), t) {
        return false;
    }
    true
}

/// Whether local variables with these numbers fit those of a path.
pub fn takes_all<L: Lookups>(
    w: &L,
    paths: &Paths,
    skips: &[u32],
    from: usize,
    locals: &[VType],
    slots: &[usize],
) -> bool
    requires { AreSkips paths.now skips.now }
    ensures { MatchBool result
        (All (TakesAt (L.world w.now) (path paths.now from) locals.now) slots.now) (Unit {0}) }
{
    for slot in slots {
        if !takes_at(w, paths, skips, from, locals, *slot) {
            return false;
        }
    }
    true
}
