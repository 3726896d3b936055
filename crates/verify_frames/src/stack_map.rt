//! The stack map of a method (JVMS 4.7.4).

ghost use Rattle.std.specs.Prelude.{◌≡◌, IfOk, IfSome, map};
ghost use Rattle.std.specs.Option.{option_map};
ghost use Rattle.std.specs.Result.{result_ok};
ghost use Rattle.stack_maps.specs.Changes.{made_whole};
ghost use Rattle.stack_maps.specs.Expansion.{expansion};
ghost use Rattle.verify_types.specs.Environment.{map_frame};
ghost use Rattle.verify_frames.specs.Entries.{Rises};
ghost use Rattle.verify_frames.specs.StackMaps.{mapped, pc_of};

use crate::frames::Frames;
use items::NoMemory;
use link_model::{Lookups, MethodInfo};
use stack_maps::{FrameChange, FrameTypes, MapError, changes};
use std::alloc::Global;

// The frames of a map, each with its pc and what it changes of the one before. `None`: the bytes are no map. Those of 2^32 bytes
// and more count as want of memory.
fn changed_frames(
    alloc: Global,
    first: &FrameTypes,
    bytes: &[u8],
) -> Result<Option<Vec<(u32, FrameChange)>>, NoMemory>
    ensures frames { IfOk result (λ list. option_map (λ v. made_whole first.now.locals v.items) list
        ≡ result_ok (expansion first.now bytes.now)) }
    ensures rising { IfOk result (λ list.
        IfSome list (λ v. Rises pc_of 0 (made_whole first.now.locals v.items))) }
{
    if u32::try_from(bytes.len()).is_err() {
        return Err(NoMemory);
    }
    match changes(alloc, first, bytes) {
        Ok(frames) => Ok(Some(frames)),
        Err(MapError::Bad { .. }) => Ok(None),
        Err(MapError::NoMemory) => Err(NoMemory),
    }
}

/// The frames of the stack map of a method that begins with these types. `None`: the bytes are no map.
pub fn frames_of<L: Lookups>(
    alloc: Global,
    w: &L,
    m: &MethodInfo,
    max_locals: u16,
    first: &FrameTypes,
    bytes: &[u8],
) -> Result<Option<Frames>, NoMemory>
    ensures { IfOk result (λ frames. frames ≡
        mapped (L.world w.now) m.now max_locals first.now bytes.now) }
{
    match changed_frames(alloc, first, bytes)? {
        Some(list) => {
            let frames = Frames::new(alloc, w, m, max_locals, &first.locals, &list)?;
            Ok(Some(frames))
        }
        None => Ok(None),
    }
}
