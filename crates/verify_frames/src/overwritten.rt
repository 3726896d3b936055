//! Local variables that were overwritten since a frame of the stack map, and their types in that frame.

ghost use Rattle.std.specs.Prelude.{◌≡◌, [], IfOk, IfSome, OnOk};
ghost use Rattle.verify_instructions.specs.Views.{state_in};
ghost use Rattle.verify_frames.specs.Overwrites.{IsNoted, IsRestored, NotedAll, NotedBehind, are_assignable, finishes, is_noted, keeps_locals, noting, noting_all, noting_store, overwritten_since, type_at};

use items::NoMemory;
use link_model::Lookups;
use opcodes::Op;
use stack_maps::VType;
use std::alloc::{AllocError, Global};
use verify_instructions::{State, Types};
use verify_types::assignable;

// A state with more local variables overwritten is no longer like its frame.
const MOST: usize = 128;

/// With more uninitialized objects in local variables, a state is like no frame after one is created or initialized.
pub const MOST_UNFINISHED: usize = 32;

/// A local variable that was overwritten, and its type before.
#[derive(Clone, Copy)]
pub struct Overwritten {
    pub slot: usize,
    pub was: VType,
}

/// A frame of the stack map whose local variables a state has, but for those that were overwritten.
#[derive(Drop)]
pub struct Like {
    /// The pc of the frame.
    pub pc: u32,
    pub overwritten: Vec<Overwritten>,
}

impl Like {
    /// Local variables that are those of the frame at a pc.
    pub fn new(alloc: Global, pc: u32) -> Self
        ensures pc { result.pc ≡ pc }
        ensures none { result.overwritten.items ≡ [] }
    {
        Like {
            pc,
            overwritten: Vec::new(alloc),
        }
    }
}

/// Those that were overwritten since a frame; none where a state is like no frame.
pub fn overwritten_since(like: &Option<Like>) -> &[Overwritten]
    ensures { result.now ≡ overwritten_since like.now }
{
    match like {
        Some(like) => &like.overwritten,
        None => &[],
    }
}

/// Whether a local variable is among those that were overwritten.
pub fn is_noted(overwritten: &[Overwritten], slot: usize) -> bool
    ensures { result ≡ is_noted overwritten.now slot }
{
    overwritten.iter().any(|o| o.slot == slot)
}

/// The type of a local variable; that of an unset one where there is none of the number.
pub fn type_at(locals: &[VType], slot: usize) -> VType
    ensures { result ≡ type_at locals.now slot }
{
    match locals.get(slot) {
        Some(t) => *t,
        None => VType::Top,
    }
}

// Notes a local variable that will be overwritten.
fn note(overwritten: &mut Vec<Overwritten>, locals: &[VType], slot: usize) -> Result<(), AllocError>
    ensures { OnOk result
        (overwritten.new.items ≡ noting locals.now slot overwritten.old.items) }
{
    if is_noted(overwritten, slot) {
        return Ok(());
    }
    let was = type_at(locals, slot);
    overwritten.push(Overwritten { slot, was })?;
    Ok(())
}

// Notes the local variables that a store may overwrite: those of the value, and a long before it that loses its second slot.
fn note_store(
    overwritten: &mut Vec<Overwritten>,
    locals: &[VType],
    n: u16,
) -> Result<(), AllocError>
    ensures { OnOk result
        (overwritten.new.items ≡ noting_store locals.now n overwritten.old.items) }
{
    let slot = usize::from(n);
    note(overwritten, locals, slot.saturating_sub(1))?;
    note(overwritten, locals, slot)?;
    note(overwritten, locals, slot + 1)
}

// What a state is like after a store into a local variable.
fn behind_store(like: Like, locals: &[VType], n: u16) -> Result<Option<Like>, NoMemory>
    ensures { IfOk result (λ o. IfSome o (IsNoted like.pc
        (noting_store locals.now n like.overwritten.items))) }
{
    let Like { pc, overwritten } = like;
    let mut overwritten = overwritten;
    if overwritten.len() > MOST {
        return Ok(None);
    }
    note_store(&mut overwritten, locals, n)?;
    Ok(Some(Like { pc, overwritten }))
}

/// Notes local variables that may be overwritten.
pub fn note_all(
    overwritten: &mut Vec<Overwritten>,
    locals: &[VType],
    slots: &[usize],
) -> Result<(), AllocError>
    ensures { OnOk result
        (overwritten.new.items ≡ noting_all locals.now slots.now overwritten.old.items) }
{
    let mut rest = slots;
    while let Some((slot, others)) = rest.split_first() {
        note(overwritten, locals, *slot)?;
        rest = others;
    }
    Ok(())
}

// What a state is like after an object is created or initialized, which changes only the types of uninitialized objects.
fn behind_object(like: Like, types: &Types) -> Result<Option<Like>, NoMemory>
    ensures { IfOk result (λ o. IfSome o (NotedAll like types.now.locals)) }
{
    let slots = types.unfinished();
    if slots.len() > MOST_UNFINISHED {
        return Ok(None);
    }
    let Like { pc, overwritten } = like;
    let mut overwritten = overwritten;
    note_all(&mut overwritten, types.locals(), slots)?;
    Ok(Some(Like { pc, overwritten }))
}

/// Whether an instruction creates an object, or may initialize one.
pub fn finishes(op: &Op) -> bool
    ensures { result ≡ finishes op.now }
{
    match op {
        Op::InvokeSpecial(_) => true,
        Op::New(_) => true,
        _ => false,
    }
}

/// Whether an instruction leaves the local variables as they are.
pub fn keeps_locals(op: &Op) -> bool
    ensures { result ≡ keeps_locals op.now }
{
    match op {
        Op::Store(_, _) => false,
        Op::InvokeSpecial(_) => false,
        Op::New(_) => false,
        _ => true,
    }
}

/// What the state after an instruction is like, where the one before it has these types and is like this, and both have the same
/// flag.
pub fn like_behind(op: &Op, like: Option<Like>, types: &Types) -> Result<Option<Like>, NoMemory>
    ensures { IfOk result (λ o. IfSome o (NotedBehind op.now types.now.locals like)) }
{
    let Some(like) = like else {
        return Ok(None);
    };
    if let Op::Store(_, n) = op {
        return behind_store(like, types.locals(), *n);
    }
    if finishes(op) {
        return behind_object(like, types);
    }
    if keeps_locals(op) {
        Ok(Some(like))
    } else {
        Ok(None)
    }
}

/// Whether what overwrote local variables is assignable to what they were.
pub fn are_assignable<L: Lookups>(w: &L, overwritten: &[Overwritten], locals: &[VType]) -> bool
    ensures { result ≡ are_assignable (L.world w.now) overwritten.now locals.now }
{
    overwritten
        .iter()
        .all(|o| assignable(w, type_at(locals, o.slot), o.was))
}

/// The state with the local variables as they were before they were overwritten.
pub fn restored(state: State, overwritten: &[Overwritten]) -> Result<State, AllocError>
    ensures { IfOk result (λ s. IsRestored overwritten.now (state_in state) (state_in s)) }
{
    let mut state = state;
    let mut rest = overwritten;
    while let Some((o, behind)) = rest.split_first() {
        state.types.overwrite(o.slot, o.was)?;
        rest = behind;
    }
    Ok(state)
}
