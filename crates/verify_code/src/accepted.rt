//! Instructions after which the exception handlers are satisfied as before, since what they want of local variables takes the new types.

ghost use Rattle.std.specs.Prelude.{◌≡◌, IfSome, MatchBool};
ghost use Rattle.verify_code.specs.Accepted.{accepts_all, accepts_around, accepts_written};
ghost use Rattle.verify_code.specs.Satisfied.{IsJudgedFrom};
ghost use Rattle.verify_frames.specs.KnownStates.{Holds, type_state};

use crate::environment::Environment;
use link_model::Lookups;
use stack_maps::VType;
use verify_frames::{
    Around, Judged, KnownState, Overwritten, Wanted, Written, holds_at, type_at, types_around,
};

// Whether these types around a local variable are accepted at the pcs from one on and before another.
fn accepts_around<L: Lookups>(
    w: &L,
    wanted: &Wanted,
    from: u32,
    until: u32,
    local: u16,
    types: Around,
) -> bool
    ensures { result ≡ accepts_around (L.world w.now) wanted.now from until local types }
{
    let slot = usize::from(local);
    wanted.accepts(w, from, until, slot.saturating_sub(1), types.before)
        && (wanted.accepts(w, from, until, slot, types.at)
            && wanted.accepts(w, from, until, slot + 1, types.next))
}

// Whether the types of all of these local variables are.
fn accepts_all<L: Lookups>(
    w: &L,
    wanted: &Wanted,
    from: u32,
    until: u32,
    objects: &[Overwritten],
    locals: &[VType],
) -> bool
    ensures { result ≡
        accepts_all (L.world w.now) wanted.now from until objects.now locals.now }
{
    objects.iter().all(|o| wanted.accepts(w, from, until, o.slot, type_at(locals, o.slot)))
}

// Whether the types of local variables that were written are accepted at the pcs from one on and before another.
fn accepts_written<L: Lookups>(
    w: &L,
    wanted: &Wanted,
    from: u32,
    until: u32,
    written: &Written,
    locals: &[VType],
) -> bool
    ensures { result ≡
        accepts_written (L.world w.now) wanted.now from until written.now locals.now }
{
    match written {
        Written::Store(local) => {
            accepts_around(w, wanted, from, until, *local, types_around(locals, *local))
        }
        Written::Objects(objects) => accepts_all(w, wanted, from, until, objects, locals),
    }
}

impl<'a, L: Lookups> Environment<'a, L> {
    /// Where a state after an instruction satisfies the handlers, if it does so at the pc, as what they want of local variables shows.
    pub fn judged_by_wanted(&self, pc: u32, s: &KnownState) -> Option<Judged>
        requires holds { Holds self.now s.now }
        ensures { IfSome result (IsJudgedFrom self.now (type_state s.now) pc) }
    {
        let Some(wanted) = &self.wanted else {
            return None;
        };
        let Some(held) = &s.stored else {
            return None;
        };
        let stored = held.get();
        if !holds_at(pc, Some(stored.judged)) {
            return None;
        }
        let until = stored.judged.until;
        let locals = s.state.types.locals();
        if !accepts_written(self.world, wanted, pc, until, &stored.written, locals) {
            return None;
        }
        Some(Judged { at: pc, until })
    }
}
