//! A method as it is verified (JVMS 4.10.1.6, the environment): its tables, and the frames of its stack map.

ghost use Rattle.std.specs.Prelude.{◌≡◌, IfOk, MatchOption, false};
ghost use Rattle.verify_instructions.specs.Views.{environment_in, state_in};
ghost use Rattle.link_model.specs.Decoded.{IsDecoded};
ghost use Rattle.verify_types.specs.Environment.{first_frame};
ghost use Rattle.verify_frames.specs.StackMaps.{mapped};

use crate::guards::{Guard, guards_of};
use items::NoMemory;
use link_model::Lookups;
use std::alloc::Global;
use std::marker::Model;
use verify_frames::{Frames, Wanted, first_frame, frames_of, state_of};
use verify_instructions::{Method, State};

/// A method with code in a world, the frames of its stack map, and the rows of its exception table.
#[derive(Drop)]
pub struct Environment<'a, L: Lookups> {
    pub world: &'a L,
    pub method: Method<'a>,
    pub frames: Frames,
    pub guards: Vec<Guard>,
    /// Whether the rows are known to lie in the order of their starts.
    pub are_sorted: bool,
    /// What the handlers want of local variables, if there are many.
    pub wanted: Option<Wanted>,
}

impl<'a, L: Lookups> Model for Environment<'a, L> {
    ghost use Rattle.verify_types.specs.Environment.{Environment};
    ghost use Rattle.verify_instructions.specs.Views.{environment_in};
    ghost use Rattle.verify_code.specs.Environments.{HasFrames};

    ghost Value = { Environment };

    ghost view = { λ a. environment_in (L.world a.world.now) a.method };

    ghost invariant = { λ a. HasFrames
        (environment_in (L.world a.world.now) a.method) a.frames a.guards.items
        a.are_sorted a.wanted };
}

// The frames of the stack map of a method. `None`: its bytes are no map (JVMS 4.7.4).
fn frames_in<L: Lookups>(
    alloc: Global,
    world: &L,
    method: &Method<'_>,
) -> Result<Option<Frames>, NoMemory>
    ensures { IfOk result (λ frames. frames ≡
        mapped (L.world world.now) method.now.info.now method.now.code.now.max_locals
        (first_frame (L.world world.now) method.now.info.now) method.now.code.now.map) }
{
    let first = first_frame(alloc, world, method.info)?;
    let code = method.code;
    frames_of(
        alloc,
        world,
        method.info,
        code.max_locals,
        &first,
        &code.map,
    )
}

impl<'a, L: Lookups> Environment<'a, L> {
    /// The environment of a method. `None`: the bytes of its stack map are no map (JVMS 4.7.4).
    pub fn new(alloc: Global, world: &'a L, method: Method<'a>) -> Result<Option<Self>, NoMemory>
        requires { IsDecoded method.code.now }
        ensures { IfOk result (λ env. MatchOption env
            ((environment_in (L.world world.now) method.entry).is_mapped ≡ false)
            (λ env. env ≡ environment_in (L.world world.now) method.entry)) }
    {
        let guards = guards_of(alloc, &method.code.rows, method.catches)?;
        match frames_in(alloc, world, &method)? {
            Some(frames) => Ok(Some(Environment {
                world,
                method,
                frames,
                guards,
                are_sorted: false,
                wanted: None,
            })),
            None => Ok(None),
        }
    }

    /// The state in which the method begins (JVMS 4.10.1.6, methodInitialStackFrame).
    pub fn first_state(&self, alloc: Global) -> Result<State, NoMemory>
        ensures { IfOk result (λ s. state_in s ≡ self.now.first) }
    {
        let first = first_frame(alloc, self.world, self.method.info)?;
        state_of(alloc, self.method.info, self.method.code.max_locals, &first)
    }
}
