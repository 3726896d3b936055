//! The state before or after an instruction (JVMS 4.10.1.4).

ghost use Rattle.std.specs.Prelude.{◌≡◌, Err, IfOk, OnOk, OnErr, reverse};
ghost use Rattle.verify_types.specs.Objects as objects;
ghost use Rattle.verify_types.specs.Calls.{initialized};
ghost use Rattle.verify_types.specs.TypeStates.{with_stack};
ghost use Rattle.verify_instructions.specs.Answers.{Leaves};
ghost use Rattle.verify_instructions.specs.Views.{is_object, state_in};

use crate::stop::Stop;
use crate::types::Types;
use instruction_rows::RowWhy;
use stack_maps::VType;
use std::alloc::{AllocError, Global};

/// What is known before or after an instruction: the types of the frame, and whether the constructor that runs has still to call
/// another one (JVMS 4.10.1.4, the flag flagThisUninit).
#[derive(Drop)]
pub struct State {
    pub types: Types,
    pub this_uninit: bool,
}

/// An uninitialized object.
#[derive(Clone, Copy)]
pub enum Uninitialized {
    /// The object whose constructor runs.
    This,
    /// That of the `new` at this pc.
    New(u16),
}

/// Whether the type is that of the object.
pub fn is_object(object: Uninitialized, t: VType) -> bool
    ensures { result ≡ is_object object t }
{
    match object {
        Uninitialized::This => matches!(t, VType::UninitThis),
        Uninitialized::New(pc) => match t {
            VType::Uninit(new) => new == pc,
            _ => false,
        },
    }
}

impl State {
    /// The same with another operand stack, the top of which is its last item.
    pub fn with_stack(self, alloc: Global, stack: Vec<VType>) -> Result<Self, AllocError>
        ensures { IfOk result (λ s. state_in s ≡ with_stack (state_in self) (reverse stack.items)) }
    {
        let State { types, this_uninit } = self;
        let types = types.with_stack(alloc, stack)?;
        Ok(State { types, this_uninit })
    }

    /// `new` at this pc.
    pub fn make_new(&mut self, pc: u16) -> Result<(), Stop>
        ensures { Leaves result (state_in self.new) (objects.made_anew pc (state_in self.old)) }
    {
        let object = Uninitialized::New(pc);
        if self.types.has_operand(object) {
            return Err(Stop::Broken(RowWhy::Init));
        }
        self.types.replace_locals(object, VType::Top);
        self.types.push_slot(VType::Uninit(pc))
    }

    /// Gives the object this type wherever it is.
    pub fn initialize(&mut self, object: Uninitialized, t: VType) -> Result<(), Stop>
        ensures after { OnOk result (state_in self.new ≡
            initialized (is_object object) t self.old.this_uninit (state_in self.old)) }
        ensures full { OnErr result (result ≡ Err Stop.NoMemory) }
    {
        self.types.replace_locals(object, t);
        self.types.replace_operands(object, t)
    }
}
