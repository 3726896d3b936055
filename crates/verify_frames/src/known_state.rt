//! States, and what is known of them: the frame that they are like, the frames that they fit, and where they satisfy handlers.

ghost use Rattle.std.specs.Prelude.{◌≡◌, [], false, IfOk, IfSome, MatchBool, None, OnOk};
ghost use Rattle.verify_types.specs.Environment.{Environment};
ghost use Rattle.verify_types.specs.TypeStates.{TypeState};
ghost use Rattle.verify_instructions.specs.Views.{state_in};
ghost use Rattle.verify_frames.specs.Overwrites.{IsRestored, is_noted, overwritten_since};
ghost use Rattle.verify_frames.specs.KnownStates as spec;
ghost use Rattle.verify_frames.specs.declared.known_state.Written.TheVariants as writes;

use crate::overwritten::{Like, Overwritten, overwritten_since, restored};
use crate::watch::Watch;
use items::{Boxed, NoMemory};
use std::alloc::{AllocError, Global};
use verify_instructions::State;

// The most frames that are remembered to fit a state.
const MOST: usize = 16;

// With more local variables written, no frame is remembered.
const MOST_CHANGED: usize = 128;

/// Where the exception handlers of a state are satisfied.
#[derive(Clone, Copy)]
pub struct Judged {
    /// A pc at which they are.
    pub at: u32,
    /// No row of the exception table starts after that and before this pc.
    pub until: u32,
}

/// The local variables that an instruction may have changed.
#[derive(Drop)]
pub enum Written {
    /// Those that a store to this one may change.
    Store(u16),
    /// Only these, which were of these types.
    Objects(Vec<Overwritten>),
}

/// An instruction, before which the exception handlers of a state were satisfied.
#[derive(Drop)]
pub struct Stored {
    /// The local variables that it may have changed.
    pub written: Written,
    /// Where they were satisfied.
    pub judged: Judged,
}

/// Frames of the stack map that the local variables and the flag of a state fit, by their pcs.
#[derive(Drop)]
pub struct Fitted {
    pub pcs: Vec<u32>,
    /// The local variables that were written since, and may not fit.
    pub changed: Vec<usize>,
}

/// A state, and what is known of its local variables and its flag.
#[derive(Drop)]
pub struct KnownState {
    pub state: State,
    /// A frame of the stack map that has the same, but for local variables that were overwritten since.
    pub like: Option<Like>,
    /// Where they satisfy the exception handlers.
    pub judged: Option<Judged>,
    /// The instruction after which it isn't known whether they do.
    pub stored: Option<Boxed<Stored>>,
    /// Frames that they fit.
    pub fitted: Option<Boxed<Fitted>>,
}

// The frames, or none if they are too many.
fn bounded(alloc: Global, fitted: Option<Boxed<Fitted>>) -> Fitted
    ensures { (env : Environment) (s : TypeState) → spec.FitAll env s fitted
        → spec.AllFit env s result }
{
    let Some(fitted) = fitted else {
        return Fitted::new(alloc);
    };
    if fitted.get().pcs.len() < MOST {
        fitted.into_inner()
    } else {
        Fitted::new(alloc)
    }
}

// Adds a local variable, unless it is among these.
fn list(slots: &mut Vec<usize>, slot: usize) -> Result<(), AllocError>
    ensures { OnOk result (spec.Lists slots.old.items slot slots.new.items) }
{
    if slots.iter().any(|n| *n == slot) {
        return Ok(());
    }
    slots.push(slot)?;
    Ok(())
}

// Adds local variables that a store may change.
fn list_store(slots: &mut Vec<usize>, n: u16) -> Result<(), AllocError>
    ensures { OnOk result
        (spec.ListsAll slots.old.items (spec.Spares (writes.Store n)) slots.new.items) }
{
    let slot = usize::from(n);
    list(slots, slot.saturating_sub(1))?;
    list(slots, slot)?;
    list(slots, slot + 1)
}

// Adds these local variables.
fn list_objects(slots: &mut Vec<usize>, objects: &[Overwritten]) -> Result<(), AllocError>
    ensures { OnOk result
        (spec.ListsAll slots.old.items (λ i. is_noted objects.now i ≡ false) slots.new.items) }
{
    let mut rest = objects;
    while let Some((o, behind)) = rest.split_first() {
        list(slots, o.slot)?;
        rest = behind;
    }
    Ok(())
}

// Adds local variables that may have been changed.
fn list_written(slots: &mut Vec<usize>, written: &Written) -> Result<(), AllocError>
    ensures { OnOk result
        (spec.ListsAll slots.old.items (spec.Spares written.now) slots.new.items) }
{
    match written {
        Written::Store(n) => list_store(slots, *n),
        Written::Objects(objects) => list_objects(slots, objects),
    }
}

// The same frames after an instruction, unless too many local variables were written.
fn fitted_behind(
    alloc: Global,
    fitted: Option<Boxed<Fitted>>,
    written: &Option<Written>,
) -> Result<Option<Boxed<Fitted>>, AllocError>
    ensures { IfOk result (λ o. IfSome o (spec.AreBehind written.now fitted)) }
{
    let Some(fitted) = fitted else {
        return Ok(None);
    };
    let Some(written) = written else {
        return Ok(None);
    };
    let Fitted { pcs, changed } = fitted.into_inner();
    if changed.len() > MOST_CHANGED {
        return Ok(None);
    }
    let mut changed = changed;
    list_written(&mut changed, written)?;
    Ok(Some(Boxed::new(alloc, Fitted { pcs, changed })?))
}

impl Fitted {
    /// Frames that a state is known to fit, and another.
    pub fn with(alloc: Global, fitted: Option<Boxed<Fitted>>, pc: u32) -> Result<Self, NoMemory>
        ensures { IfOk result (λ now. (env : Environment) (s : TypeState)
            → spec.FitAll env s fitted → spec.FitsLocals env s pc → spec.AllFit env s now) }
    {
        let Fitted { pcs, changed } = bounded(alloc, fitted);
        let mut pcs = pcs;
        pcs.push(pc)?;
        Ok(Fitted { pcs, changed })
    }

    // No frames.
    fn new(alloc: Global) -> Self
        ensures { result.pcs.items ≡ [] }
    {
        Fitted {
            pcs: Vec::new(alloc),
            changed: Vec::new(alloc),
        }
    }

    /// The same frames.
    pub fn again(&self) -> Result<Self, NoMemory>
        ensures { IfOk result (λ other. (env : Environment) (s : TypeState)
            → spec.AllFit env s self.now → spec.AllFit env s other) }
    {
        Ok(Fitted {
            pcs: self.pcs.clone()?,
            changed: self.changed.clone()?,
        })
    }
}

impl KnownState {
    /// The local variables that were overwritten since the frame that it is like.
    pub fn overwritten(&self) -> &[Overwritten]
        ensures { result.now ≡ overwritten_since self.now.like }
    {
        overwritten_since(&self.like)
    }

    /// The state with the local variables of the frame that it is like.
    pub fn restored(self) -> Result<State, AllocError>
        ensures { IfOk result (λ s.
            IsRestored (overwritten_since self.like) (spec.type_state self) (state_in s)) }
    {
        let KnownState {
            state,
            like,
            judged: _,
            stored: _,
            fitted: _,
        } = self;
        restored(state, overwritten_since(&like))
    }

    /// The state, and where it satisfies the exception handlers.
    pub fn with_judged(self, judged: Option<Judged>) -> Self
        ensures { result ≡ record self { judged = judged; stored = None } }
    {
        let KnownState {
            state,
            like,
            judged: _,
            stored: _,
            fitted,
        } = self;
        KnownState {
            state,
            like,
            judged,
            stored: None,
            fitted,
        }
    }
}

/// The state after an instruction, and whether it goes on. The local variables of one that doesn't may serve at the next frame.
#[derive(Drop)]
pub struct StateAfter {
    pub known: Option<KnownState>,
    pub goes_on: bool,
}

impl StateAfter {
    /// Nothing is known after an instruction.
    pub fn unknown() -> Self
        ensures { result ≡ record { known = None; goes_on = false } }
    {
        StateAfter {
            known: None,
            goes_on: false,
        }
    }

    /// This is the state after an instruction, and goes on or not.
    pub fn new(after: KnownState, goes_on: bool) -> Self
        ensures { result ≡ record { known = Some after; goes_on = goes_on } }
    {
        StateAfter {
            known: Some(after),
            goes_on,
        }
    }

    /// The state, if it goes on.
    pub fn going(self) -> Option<KnownState>
        ensures { result ≡ spec.if_going self.known self.goes_on }
    {
        let StateAfter { known, goes_on } = self;
        if goes_on { known } else { None }
    }
}

// Whether two flags are the same.
fn is_same(a: bool, b: bool) -> bool
    ensures { MatchBool result (a ≡ b) (Unit {0}) }
{
    if a { b } else { !b }
}

// The local variables that an instruction may have changed, if it is known.
fn written_by(watch: Watch) -> Option<Written>
    ensures { result ≡ spec.written_by watch }
{
    match watch {
        Watch::Store(local, _) => Some(Written::Store(local)),
        Watch::Objects(objects) => Some(Written::Objects(objects)),
        _ => None,
    }
}

// What an instruction may have changed, where handlers were satisfied before it.
fn stored_by(
    alloc: Global,
    written: Option<Written>,
    judged: Option<Judged>,
) -> Result<Option<Boxed<Stored>>, AllocError>
    ensures { IfOk result (λ stored. stored ≡ spec.stored_in written judged) }
{
    let Some(judged) = judged else {
        return Ok(None);
    };
    match written {
        Some(written) => Ok(Some(Boxed::new(alloc, Stored { written, judged })?)),
        None => Ok(None),
    }
}

/// A state after an instruction, and what is known of it: the state before had this flag, satisfied the handlers here and
/// fitted these frames; the state after is like this frame if it has the same flag.
pub fn known_after(
    alloc: Global,
    state: State,
    this_uninit: bool,
    watch: Watch,
    like: Option<Like>,
    judged: Option<Judged>,
    fitted: Option<Boxed<Fitted>>,
) -> Result<KnownState, NoMemory>
    ensures { IfOk result (spec.KnownAfter this_uninit watch like judged fitted state) }
{
    if !is_same(state.this_uninit, this_uninit) {
        return Ok(KnownState {
            state,
            like: None,
            judged: None,
            stored: None,
            fitted: None,
        });
    }
    if watch.is_kept(state.types.locals()) {
        return Ok(KnownState {
            state,
            like,
            judged,
            stored: None,
            fitted,
        });
    }
    let written = written_by(watch);
    let fitted = fitted_behind(alloc, fitted, &written)?;
    let stored = stored_by(alloc, written, judged)?;
    Ok(KnownState {
        state,
        like,
        judged: None,
        stored,
        fitted,
    })
}

/// Whether the exception handlers are known to be satisfied at a pc.
pub fn holds_at(pc: u32, judged: Option<Judged>) -> bool
    ensures { result ≡ spec.holds_at pc judged }
{
    match judged {
        Some(j) => j.at <= pc && pc < j.until,
        None => false,
    }
}
