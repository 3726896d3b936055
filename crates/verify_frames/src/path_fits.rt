//! Slots that fit the types of a path.

ghost use Rattle.std.specs.Prelude.{◌≡◌, ◌∷◌, [], MatchOption};
ghost use Rattle.std.specs.List.{list_any};
ghost use Rattle.instruction_rows.specs.Contents.{types_of};
ghost use Rattle.stack_maps.specs.declared.types.VType.TheVariants as types;
ghost use Rattle.type_paths.specs.Paths.{path};
ghost use Rattle.verify_frames.specs.PathFits as spec;

use instruction_rows::is_wide;
use link_model::Lookups;
use stack_maps::VType;
use type_paths::Paths;
use verify_types::assignable;

// The slots in front of the last, where that is assignable to a type.
fn in_front_of_one<'a, L: Lookups>(w: &L, slots: &'a [VType], t: VType) -> Option<&'a [VType]>
    ensures { MatchOption result (spec.EndElse (L.world w.now) slots.now (t ∷ []))
        (λ front. spec.AreInFront (L.world w.now) slots.now front.now (t ∷ [])) }
{
    match slots.split_last() {
        Some((last, front)) => {
            if assignable(w, *last, t) {
                Some(front)
            } else {
                None
            }
        }
        None => None,
    }
}

// The slots in front of the last two, where the first of those is assignable to a type.
fn in_front_of_two<'a, L: Lookups>(w: &L, slots: &'a [VType], t: VType) -> Option<&'a [VType]>
    ensures { MatchOption result (spec.EndElse (L.world w.now) slots.now (t ∷ types.Top ∷ []))
        (λ front. spec.AreInFront (L.world w.now) slots.now front.now (t ∷ types.Top ∷ [])) }
{
    let Some(middle) = in_front_of_one(w, slots, VType::Top) else {
        return None;
    };
    in_front_of_one(w, middle, t)
}

// The slots in front of the last, where those are assignable to the slots of a type.
fn in_front_of<'a, L: Lookups>(w: &L, slots: &'a [VType], t: VType) -> Option<&'a [VType]>
    ensures { MatchOption result (spec.EndElse (L.world w.now) slots.now (types_of t))
        (λ front. spec.AreInFront (L.world w.now) slots.now front.now (types_of t)) }
{
    if is_wide(t) {
        in_front_of_two(w, slots, t)
    } else {
        in_front_of_one(w, slots, t)
    }
}

/// Whether all types of a path are known, and slots are assignable to theirs.
pub fn fit_path<L: Lookups>(w: &L, paths: &Paths, from: usize, slots: &[VType]) -> bool
    ensures { result ≡ spec.fit_path (L.world w.now) slots.now (path paths.now from) }
{
    let mut left = slots;
    let mut node = from;
    while let Some(top) = paths.top(node) {
        let Some(t) = top.item else {
            return false;
        };
        let Some(front) = in_front_of(w, left, t) else {
            return false;
        };
        left = front;
        node = top.below as usize;
    }
    left.is_empty()
}

/// Whether local variables are assignable to those of a path and the unset ones after them. One that names a constant that is
/// no class isn't judged here.
pub fn fit_locals<L: Lookups>(
    w: &L,
    paths: &Paths,
    from: usize,
    max_locals: u16,
    locals: &[VType],
) -> bool
    ensures { result ≡
        spec.fit_locals (L.world w.now) max_locals locals.now (path paths.now from) }
{
    let Some(count) = paths.slot_count(from) else {
        return true;
    };
    if locals.len() < count {
        return false;
    }
    let (named, unset) = locals.split_at(count);
    unset.len() == usize::from(max_locals).saturating_sub(count) && fit_path(w, paths, from, named)
}

/// Whether the object whose constructor runs is on a path.
pub fn has_this(paths: &Paths, from: usize) -> bool
    ensures { result ≡ list_any spec.is_this_item (path paths.now from) }
{
    let mut node = from;
    while let Some(top) = paths.top(node) {
        if matches!(top.item, Some(VType::UninitThis)) {
            return true;
        }
        node = top.below as usize;
    }
    false
}
