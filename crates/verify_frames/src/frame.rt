//! A frame of the stack map, and states that fit it (JVMS 4.10.1.4).

ghost use Rattle.std.specs.Prelude.{◌≡◌, ◌&&◌, [], ◌∷◌, ◌||◌, IfOk, is_some, not, true};
ghost use Rattle.std.specs.List.{list_any};
ghost use Rattle.std.specs.Option.{option_map, option_map_or};
ghost use Rattle.instruction_rows.specs.Contents.{slot_types};
ghost use Rattle.type_paths.specs.Paths.{path, types_on};
ghost use Rattle.verify_types.specs.TypeStates.{all_assignable, fits, with_stack};
ghost use Rattle.verify_instructions.specs.Views.{state_in};
ghost use Rattle.verify_frames.specs.FramePaths.{frame_types};
ghost use Rattle.verify_frames.specs.Frames.{frame_in};
ghost use Rattle.verify_frames.specs.PathFits.{is_this_item, state_of_slots};

use crate::frame_paths::{Entry, is_known};
use crate::frame_state::{slots, state_where};
use crate::path_fits::{fit_locals, fit_path, has_this};
use items::NoMemory;
use link_model::Lookups;
use stack_maps::{FrameTypes, VType};
use std::alloc::Global;
use type_paths::Paths;
use verify_instructions::State;

/// A frame of the stack map, whose types are paths that it shares with the other frames.
#[derive(Clone, Copy)]
pub struct Frame<'a> {
    pub paths: &'a Paths,
    pub is_constructor: bool,
    pub max_locals: u16,
    pub entry: Entry,
}

impl<'a> Frame<'a> {
    /// Whether none of its types is a constant that is no class.
    pub fn is_known(&self) -> bool
        ensures { result ≡ is_some (frame_types (path self.now.paths.now self.now.entry.locals)
            (path self.now.paths.now self.now.entry.stack)) }
    {
        is_known(self.paths, self.entry)
    }

    // Whether it lies in a constructor that has still to call another one, if the state does.
    fn takes_flag(&self, this_uninit: bool) -> bool
        ensures { result ≡ (not this_uninit || (self.now.is_constructor
            && list_any is_this_item (path self.now.paths.now self.now.entry.locals))) }
    {
        !this_uninit || (self.is_constructor && has_this(self.paths, self.entry.locals))
    }

    // Whether the state of these slots, the top of the operand stack last, fits the frame. One that names a constant that is no
    // class isn't judged.
    fn fits_slots<L: Lookups>(
        &self,
        w: &L,
        locals: &[VType],
        stack: &[VType],
        this_uninit: bool,
    ) -> bool
        ensures { result ≡ option_map_or
            (fits (L.world w.now) (state_of_slots locals.now stack.now this_uninit))
            (frame_in self.now).state true }
    {
        if !self.is_known() {
            return true;
        }
        if !fit_locals(w, self.paths, self.entry.locals, self.max_locals, locals) {
            return false;
        }
        if !fit_path(w, self.paths, self.entry.stack, stack) {
            return false;
        }
        self.takes_flag(this_uninit)
    }

    /// Whether a state fits the frame. One that names a constant that is no class isn't judged here.
    pub fn fits<L: Lookups>(&self, w: &L, s: &State) -> bool
        ensures { result ≡
            option_map_or (fits (L.world w.now) (state_in s.now)) (frame_in self.now).state true }
    {
        self.fits_slots(w, s.types.locals(), s.types.stack(), s.this_uninit)
    }

    /// Whether a state fits the frame of a handler, with what is caught alone on the operand stack. A frame that names a constant
    /// that is no class isn't judged here.
    pub fn fits_caught<L: Lookups>(&self, w: &L, s: &State, caught: VType) -> bool
        ensures { result ≡ option_map_or
            (fits (L.world w.now) (with_stack (state_in s.now) (caught ∷ [])))
            (frame_in self.now).state true }
    {
        self.fits_slots(w, s.types.locals(), &[caught], s.this_uninit)
    }

    /// Whether the local variables fit, and an operand stack, its top last, fits that of the frame. One that names a constant that
    /// is no class isn't judged.
    pub fn fits_stack<L: Lookups>(&self, w: &L, locals_fit: bool, stack: &[VType]) -> bool
        ensures { result ≡ option_map_or
            (λ ss. locals_fit && all_assignable (L.world w.now) stack.now (slot_types ss))
            (types_on (path self.now.paths.now self.now.entry.stack)) true }
    {
        self.paths.slot_count(self.entry.stack).is_none()
            || (locals_fit && fit_path(w, self.paths, self.entry.stack, stack))
    }

    /// Its operand stack slot by slot, the top last. `None`: it names a constant that is no class.
    pub fn stack_slots(&self, alloc: Global) -> Result<Option<Vec<VType>>, NoMemory>
        ensures { IfOk result (λ v. option_map (λ v. v.items) v ≡
            option_map slot_types (types_on (path self.now.paths.now self.now.entry.stack))) }
    {
        match self.paths.types(alloc, self.entry.stack)? {
            Some(types) => Ok(Some(slots(alloc, &types)?)),
            None => Ok(None),
        }
    }

    // Its types, one by one. `None`: it names a constant that is no class.
    fn types(&self, alloc: Global) -> Result<Option<FrameTypes>, NoMemory>
        ensures { IfOk result (λ types. types ≡
            frame_types (path self.now.paths.now self.now.entry.locals)
            (path self.now.paths.now self.now.entry.stack)) }
    {
        let Some(locals) = self.paths.types(alloc, self.entry.locals)? else {
            return Ok(None);
        };
        match self.paths.types(alloc, self.entry.stack)? {
            Some(stack) => Ok(Some(FrameTypes { locals, stack })),
            None => Ok(None),
        }
    }

    /// The state that its types mean. `None`: it names a constant that is no class.
    pub fn state(&self, alloc: Global) -> Result<Option<State>, NoMemory>
        ensures { IfOk result (λ s. option_map state_in s ≡ (frame_in self.now).state) }
    {
        match self.types(alloc)? {
            Some(types) => {
                let state = state_where(alloc, self.is_constructor, self.max_locals, &types)?;
                Ok(Some(state))
            }
            None => Ok(None),
        }
    }
}
