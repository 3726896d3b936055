//! The state after an instruction (JVMS 4.10.1.9).

ghost use Rattle.std.specs.Prelude.{◌≡◌, ℕ, Ok, Some, false};
ghost use Rattle.instruction_rows.specs.Results.{◌then◌};
ghost use Rattle.instruction_rows.specs.Table.{row, simple_row};
ghost use Rattle.link_model.specs.declared.sites.Resolution.{Resolution};
ghost use Rattle.verify_types.specs.Environment.{Environment};
ghost use Rattle.verify_types.specs.TypeStates.{with_stack, with_types};
ghost use Rattle.verify_types.specs.Objects as objects;
ghost use Rattle.verify_types.specs.Effects as spec;
ghost use Rattle.verify_instructions.specs.Answers.{Gives, Leaves};
ghost use Rattle.verify_instructions.specs.RowKinds.{is_stack_event};
ghost use Rattle.verify_instructions.specs.Rows.{local_types, event_stack};
ghost use Rattle.verify_instructions.specs.Views.{state_in, environment_in};

use crate::method::Method;
use crate::state::State;
use crate::stop::Stop;
use instruction_rows::RowWhy;
use link_model::{Lookups, Resolution, Site};
use opcodes::{Op, Primitive, Simple, ValueKind};
use stack_maps::VType;
use verify_types::type_of_value;

// The type of the value that a constant means.
fn constant_type<L: Lookups>(w: &L, site: Site) -> Result<VType, Stop>
    ensures { Gives result (λ t. t) (objects.constant_type (L.world w.now) site) }
{
    match site {
        Site::Value(value) => Ok(type_of_value(w, value)),
        _ => Err(Stop::Broken(RowWhy::Kind)),
    }
}

// Whether an instruction without operands in the code is an event.
#[inline(always)]
fn is_simple_event(simple: Simple) -> bool
    ensures { result ≡ is_stack_event (simple_row simple) }
{
    matches!(
        simple,
        Simple::ArrayLoad(_)
            | Simple::ArrayStore(_)
            | Simple::ArrayLength
            | Simple::Throw
            | Simple::MonitorEnter
            | Simple::MonitorExit
    )
}

// Whether an instruction is an event that changes only the operand stack: each but `new`.
#[inline(always)]
fn is_event(op: &Op) -> bool
    ensures { result ≡ is_stack_event (row op.now) }
{
    match op {
        Op::Simple(simple) => is_simple_event(*simple),
        Op::NewArray(primitive) => !matches!(primitive, Primitive::Float | Primitive::Double),
        Op::GetStatic(_)
        | Op::PutStatic(_)
        | Op::GetField(_)
        | Op::PutField(_)
        | Op::ANewArray(_)
        | Op::MultiANewArray(_, _)
        | Op::CheckCast(_)
        | Op::InstanceOf(_) => true,
        _ => false,
    }
}

impl State {
    // ldc, ldc_w and ldc2_w.
    fn push_constant<L: Lookups>(&mut self, w: &L, resolution: Resolution) -> Result<(), Stop>
        ensures { Leaves result (state_in self.new)
            (spec.constant_pushed (L.world w.now) resolution (state_in self.old)) }
    {
        let t = constant_type(w, resolution.site)?;
        self.types.push(t)
    }

    // A return with a value of this kind.
    fn take_returned(&mut self, kind: ValueKind) -> Result<(), Stop>
        ensures { Leaves result (state_in self.new)
            (spec.returned_from (Some kind) self.old.types.stack then λ stack.
            Ok (with_stack (state_in self.old) stack)) }
    {
        self.types.pop_kind(kind)?;
        Ok(())
    }

    // A local instruction.
    fn local(&mut self, op: &Op) -> Result<(), Stop>
        ensures { Leaves result (state_in self.new)
            (local_types (row op.now) self.old.types then λ types.
            Ok (with_types (state_in self.old) types)) }
    {
        self.types.local_row(op)
    }

    // A local instruction without operands in the code.
    fn simple_local(&mut self, simple: Simple) -> Result<(), Stop>
        ensures { Leaves result (state_in self.new)
            (local_types (simple_row simple) self.old.types then λ types.
            Ok (with_types (state_in self.old) types)) }
    {
        self.types.simple_local(simple)
    }

    // An event that isn't `new`.
    fn event<L: Lookups>(
        &mut self,
        w: &L,
        own: u32,
        pc: u16,
        resolution: Resolution,
        op: &Op,
    ) -> Result<(), Stop>
        ensures { Leaves result (state_in self.new)
            (event_stack (L.world w.now) own pc resolution (row op.now) self.old.types.stack
            then λ stack. Ok (with_stack (state_in self.old) stack)) }
    {
        self.types.event(w, own, pc, resolution, op)
    }

    // An instruction without operands in the code that is no event.
    fn simple(&mut self, simple: Simple) -> Result<(), Stop>
        requires { is_stack_event (simple_row simple) ≡ false }
        ensures { (env : Environment) (pc : ℕ) (resolution : Resolution) →
            Leaves result (state_in self.new)
            (spec.row_state env pc resolution (simple_row simple) (state_in self.old)) }
    {
        match simple {
            Simple::ReturnValue(kind) => self.take_returned(kind),
            Simple::Return => Ok(()),
            _ => self.simple_local(simple),
        }
    }

    /// Turns the state before an instruction into that after it. If the instruction breaks a rule, the state that is left is unspecified.
    pub fn apply<L: Lookups>(
        &mut self,
        w: &L,
        m: &Method<'_>,
        pc: u16,
        resolution: Resolution,
        op: &Op,
    ) -> Result<(), Stop>
        ensures { Leaves result (state_in self.new)
            (spec.row_state (environment_in (L.world w.now) m.now) pc resolution (row op.now)
            (state_in self.old)) }
    {
        if is_event(op) {
            return self.event(w, m.info.class, pc, resolution, op);
        }
        match op {
            Op::Simple(simple) => self.simple(*simple),
            Op::PushConstant(_) => self.push_constant(w, resolution),
            Op::PushWideConstant(_) => self.push_constant(w, resolution),
            Op::InvokeVirtual(_) => self.invoke_virtual(w, resolution),
            Op::InvokeInterface(_, _) => self.invoke_virtual(w, resolution),
            Op::InvokeStatic(_) => self.invoke_static(w, resolution),
            Op::InvokeSpecial(_) => self.invoke_special(w, m, pc, resolution),
            Op::New(_) => self.make_new(pc),
            Op::NewArray(_) | Op::InvokeDynamic(_) | Op::Jsr(_) | Op::Ret(_) | Op::Floating(_) =>
                Err(Stop::Broken(RowWhy::Kind)),
            _ => self.local(op),
        }
    }
}
