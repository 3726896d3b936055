//! Whether an instruction changes local variables.

ghost use Rattle.std.specs.Prelude.{◌≡◌, IfOk, MatchBool};
ghost use Rattle.verify_frames.specs.Overwrites.{AllWere, around};
ghost use Rattle.verify_frames.specs.Watches.{ShowsKept, Watches, WatchesObjects};

use crate::overwritten::{MOST_UNFINISHED, Overwritten, finishes, keeps_locals, note_all, type_at};
use items::NoMemory;
use opcodes::Op;
use stack_maps::{Base, VType};
use std::alloc::Global;
use verify_instructions::Types;

/// The types around a local variable, and its own.
#[derive(Clone, Copy)]
pub struct Around {
    pub before: VType,
    pub at: VType,
    pub next: VType,
}

/// What shows whether an instruction changed local variables.
#[derive(Drop)]
pub enum Watch {
    /// It changes none.
    Kept,
    /// It stores to this one; before it, these were the types around it.
    Store(u16, Around),
    /// It may change only these, which were of these types before it.
    Objects(Vec<Overwritten>),
    /// It may change any.
    Changed,
}

/// The types around a local variable.
pub fn types_around(locals: &[VType], n: u16) -> Around
    ensures { result ≡ around locals.now n }
{
    let slot = usize::from(n);
    Around {
        before: type_at(locals, slot.saturating_sub(1)),
        at: type_at(locals, slot),
        next: type_at(locals, slot + 1),
    }
}

// Whether the elements of two arrays, or two classes, are known to be the same.
fn is_same_base(a: Base, b: Base) -> bool
    ensures { MatchBool result (a ≡ b) (Unit {0}) }
{
    match a {
        Base::Class(x) => match b {
            Base::Class(y) => { if x == y { true } else { false } }
            _ => false,
        },
        Base::Int => match b {
            Base::Int => true,
            _ => false,
        },
        Base::Byte => match b {
            Base::Byte => true,
            _ => false,
        },
        Base::Short => match b {
            Base::Short => true,
            _ => false,
        },
        Base::Bool => match b {
            Base::Bool => true,
            _ => false,
        },
        Base::Char => match b {
            Base::Char => true,
            _ => false,
        },
        Base::Long => match b {
            Base::Long => true,
            _ => false,
        },
        _ => false,
    }
}

/// Whether two types are known to be the same.
pub fn is_same_type(a: VType, b: VType) -> bool
    ensures { MatchBool result (a ≡ b) (Unit {0}) }
{
    match a {
        VType::Top => match b {
            VType::Top => true,
            _ => false,
        },
        VType::Int => match b {
            VType::Int => true,
            _ => false,
        },
        VType::Long => match b {
            VType::Long => true,
            _ => false,
        },
        VType::Null => match b {
            VType::Null => true,
            _ => false,
        },
        VType::UninitThis => match b {
            VType::UninitThis => true,
            _ => false,
        },
        VType::Uninit(x) => match b {
            VType::Uninit(y) => { if x == y { true } else { false } }
            _ => false,
        },
        VType::Named(n, base) => match b {
            VType::Named(m, other) => {
                if n != m {
                    return false;
                }
                if is_same_base(base, other) {
                    true
                } else {
                    false
                }
            }
            _ => false,
        },
        _ => false,
    }
}

/// Whether these types are known to be the same as those.
#[tactic(auto, using(crate::proofs::WatchLaws::around_same))]
pub fn are_same(a: Around, b: Around) -> bool
    ensures { MatchBool result (a ≡ b) (Unit {0}) }
{
    if !is_same_type(a.before, b.before) {
        return false;
    }
    if !is_same_type(a.at, b.at) {
        return false;
    }
    if !is_same_type(a.next, b.next) {
        return false;
    }
    true
}

// What shows whether an instruction that creates or initializes an object changes local variables, where these types come
// before it.
fn watched_objects(alloc: Global, types: &Types) -> Result<Watch, NoMemory>
    ensures { IfOk result (WatchesObjects types.now.locals) }
{
    let slots = types.unfinished();
    if slots.is_empty() {
        return Ok(Watch::Kept);
    }
    if slots.len() > MOST_UNFINISHED {
        return Ok(Watch::Changed);
    }
    let mut objects = Vec::new(alloc);
    note_all(&mut objects, types.locals(), slots)?;
    Ok(Watch::Objects(objects))
}

/// What shows whether an instruction changes local variables, where these types come before it.
pub fn watched(alloc: Global, op: &Op, types: &Types) -> Result<Watch, NoMemory>
    ensures { IfOk result (Watches op.now types.now.locals) }
{
    if let Op::Store(_, n) = op {
        return Ok(Watch::Store(*n, types_around(types.locals(), *n)));
    }
    if keeps_locals(op) {
        return Ok(Watch::Kept);
    }
    if finishes(op) {
        return watched_objects(alloc, types);
    }
    Ok(Watch::Changed)
}

// Whether local variables are known to be of the types that were noted.
fn are_as_before(objects: &[Overwritten], locals: &[VType]) -> bool
    ensures { MatchBool result (AllWere locals.now objects.now) (Unit {0}) }
{
    let mut rest = objects;
    while let Some((o, behind)) = rest.split_first() {
        if !is_same_type(type_at(locals, o.slot), o.was) {
            return false;
        }
        rest = behind;
    }
    true
}

impl Watch {
    /// Whether the local variables after the instruction are known to be those before it.
    pub fn is_kept(&self, locals: &[VType]) -> bool
        ensures { MatchBool result (ShowsKept self.now locals.now) (Unit {0}) }
    {
        match self {
            Watch::Kept => true,
            Watch::Store(n, was) => are_same(types_around(locals, *n), *was),
            Watch::Objects(objects) => are_as_before(objects, locals),
            Watch::Changed => false,
        }
    }
}
