//! The types of frames as paths.

ghost use Rattle.std.specs.Prelude.{◌≡◌, IfOk, List, OnOk, is_some};
ghost use Rattle.stack_maps.specs.declared.types.VType.{VType as OneType};
ghost use Rattle.std.specs.List.{AllZip};
ghost use Rattle.stack_maps.specs.Changes.{locals_after, made_whole, types_after};
ghost use Rattle.type_paths.specs.Paths.{IsPath, Path, path};
ghost use Rattle.verify_frames.specs.FramePaths.{Grows, IsEntry, frame_types, onto, path_of};

use items::NoMemory;
use link_model::Lookups;
use stack_maps::{FrameChange, LocalsChange, VType};
use std::alloc::{AllocError, Global};
use type_paths::Paths;
use verify_types::resolve;

/// An entry of a stack map: the pc of a frame, and the nodes of its local variables and of its operand stack.
#[derive(Clone, Copy)]
pub struct Entry {
    pub pc: u32,
    pub locals: usize,
    pub stack: usize,
}

/// Whether no type of an entry is a constant that is no class.
#[tactic(auto, using(crate::proofs::FrameFitLaws::known))]
pub fn is_known(paths: &Paths, entry: Entry) -> bool
    ensures { result ≡ is_some
        (frame_types (path paths.now entry.locals) (path paths.now entry.stack)) }
{
    paths.slot_count(entry.locals).is_some() && paths.slot_count(entry.stack).is_some()
}

// Appends types to a path, each resolved in the code of a class.
fn append<L: Lookups>(
    paths: &mut Paths,
    w: &L,
    class: u32,
    from: usize,
    types: &[VType],
) -> Result<usize, AllocError>
    ensures grown { OnOk result (Grows paths.old paths.new) }
    ensures node { IfOk result (λ n. (p : Path) → IsPath paths.old from p
        → IsPath paths.new n (onto (L.world w.now) class p types.now)) }
{
    let mut node = from;
    let mut rest = types;
    while let Some((t, behind)) = rest.split_first() {
        let item = resolve(w, class, *t);
        let put = paths.push(node, item)?;
        node = put;
        rest = behind;
    }
    Ok(node)
}

// Makes a path of these types.
fn put<L: Lookups>(
    paths: &mut Paths,
    w: &L,
    class: u32,
    types: &[VType],
) -> Result<usize, AllocError>
    ensures grown { OnOk result (Grows paths.old paths.new) }
    ensures node { IfOk result (λ n.
        IsPath paths.new n (path_of (L.world w.now) class types.now)) }
{
    let root = paths.root();
    append(paths, w, class, root, types)
}

// The path of the local variables after a change.
fn changed<L: Lookups>(
    paths: &mut Paths,
    w: &L,
    class: u32,
    locals: usize,
    change: &LocalsChange,
) -> Result<usize, AllocError>
    ensures grown { OnOk result (Grows paths.old paths.new) }
    ensures node { IfOk result (λ n. (ls : List OneType)
        → IsPath paths.old locals (path_of (L.world w.now) class ls)
        → IsPath paths.new n (path_of (L.world w.now) class (locals_after ls change.now))) }
{
    match change {
        LocalsChange::Same => Ok(locals),
        LocalsChange::Chop(dropped) => Ok(paths.chopped(locals, *dropped)),
        LocalsChange::Append(added) => append(paths, w, class, locals, added),
        LocalsChange::Full(types) => put(paths, w, class, types),
    }
}

// The entry of a frame that follows one whose local variables have this path.
fn entry_of<L: Lookups>(
    paths: &mut Paths,
    w: &L,
    class: u32,
    locals: usize,
    change: &(u32, FrameChange),
) -> Result<Entry, AllocError>
    ensures grown { OnOk result (Grows paths.old paths.new) }
    ensures entry { IfOk result (λ e. (ls : List OneType)
        → IsPath paths.old locals (path_of (L.world w.now) class ls)
        → IsEntry (L.world w.now) class paths.new e
        (change.now.0, types_after ls change.now.1)) }
{
    let locals = changed(paths, w, class, locals, &change.1.locals)?;
    let stack = put(paths, w, class, &change.1.stack)?;
    Ok(Entry {
        pc: change.0,
        locals,
        stack,
    })
}

/// The entries of the frames with these changes, the first of them after local variables of these types.
pub fn entries_of<L: Lookups>(
    alloc: Global,
    paths: &mut Paths,
    w: &L,
    class: u32,
    first: &[VType],
    changes: &[(u32, FrameChange)],
) -> Result<Vec<Entry>, NoMemory>
    ensures { IfOk result (λ es. AllZip (IsEntry (L.world w.now) class paths.new) es.items
        (made_whole first.now changes.now)) }
{
    let mut locals = put(paths, w, class, first)?;
    let mut entries = Vec::with_capacity(alloc, changes.len())?;
    let mut rest = changes;
    while let Some((change, behind)) = rest.split_first() {
        let entry = entry_of(paths, w, class, locals, change)?;
        entries.push(entry)?;
        locals = entry.locals;
        rest = behind;
    }
    Ok(entries)
}
