//! The rules that look at the state before or after one instruction (JVMS 4.10.1.9).

ghost use Rattle.std.specs.Prelude.{◌≡◌, false, nat_le, length};
ghost use Rattle.std.specs.Option.{option_map_or};
ghost use Rattle.instruction_rows.specs.Rows.{row_goes_on};
ghost use Rattle.instruction_rows.specs.Table.{row, simple_row};
ghost use Rattle.instruction_rows.specs.TypeEffect.{type_popped};
ghost use Rattle.verify_types.specs.Assignability as assignability;
ghost use Rattle.verify_types.specs.ClassTypes as types;
ghost use Rattle.verify_types.specs.Handlers as spec;
ghost use Rattle.verify_instructions.specs.Views.{state_in, environment_in};

use crate::method::Method;
use crate::state::State;
use link_model::Lookups;
use opcodes::{Op, Primitive, Simple, ValueKind};
use stack_maps::VType;
use verify_types::{assignable, type_of_kind};

// Whether the code goes on after an instruction without operands.
fn simple_goes_on(simple: Simple) -> bool
    ensures { result ≡ row_goes_on (simple_row simple) }
{
    match simple {
        Simple::ReturnValue(_) => false,
        Simple::Return => false,
        Simple::Throw => false,
        _ => true,
    }
}

/// Whether the code goes on after an instruction.
pub fn goes_on(op: &Op) -> bool
    ensures { result ≡ row_goes_on (row op.now) }
{
    match op {
        Op::Simple(simple) => simple_goes_on(*simple),
        Op::NewArray(primitive) => !matches!(primitive, Primitive::Float | Primitive::Double),
        Op::Goto(_) => false,
        Op::TableSwitch(_) => false,
        Op::LookupSwitch(_) => false,
        Op::Jsr(_) => false,
        Op::Ret(_) => false,
        Op::Floating(_) => false,
        _ => true,
    }
}

// Whether the type is assignable to the method's result.
fn is_of_result<L: Lookups>(w: &L, m: &Method<'_>, t: VType) -> bool
    ensures { result ≡ option_map_or (λ kind. assignability.assignable (L.world w.now) t
        (types.type_of_kind (L.world w.now) kind)) m.now.info.now.signature.result false }
{
    match &m.info.signature.result {
        Some(wanted) => assignable(w, t, type_of_kind(w, wanted)),
        None => false,
    }
}

impl State {
    // Whether the value of this kind on top, if it is there, is of the method's result.
    fn is_result<L: Lookups>(&self, w: &L, m: &Method<'_>, kind: ValueKind) -> bool
        ensures { result ≡ spec.is_result (environment_in (L.world w.now) m.now)
            (type_popped kind self.now.types.stack) }
    {
        let Some(t) = self.types.peek(kind) else {
            return true;
        };
        is_of_result(w, m, t)
    }

    // Whether an instruction without operands, where it is a return, is one of the method's result.
    fn simple_is_returned<L: Lookups>(&self, w: &L, m: &Method<'_>, simple: Simple) -> bool
        ensures { result ≡ spec.is_returned (environment_in (L.world w.now) m.now)
            (simple_row simple) (state_in self.now) }
    {
        match simple {
            Simple::ReturnValue(kind) => self.is_result(w, m, kind),
            Simple::Return => m.info.signature.result.is_none(),
            _ => true,
        }
    }

    /// Whether an instruction, where it is a return, is one of the method's result.
    pub fn is_returned<L: Lookups>(&self, w: &L, m: &Method<'_>, op: &Op) -> bool
        ensures { result ≡ spec.is_returned (environment_in (L.world w.now) m.now) (row op.now)
            (state_in self.now) }
    {
        match op {
            Op::Simple(simple) => self.simple_is_returned(w, m, *simple),
            _ => true,
        }
    }

    // Whether an instruction without operands, where it is a return, comes after another constructor was called.
    fn simple_is_finished(&self, simple: Simple) -> bool
        ensures { result ≡ spec.is_finished (simple_row simple) (state_in self.now) }
    {
        match simple {
            Simple::ReturnValue(_) => !self.this_uninit,
            Simple::Return => !self.this_uninit,
            _ => true,
        }
    }

    /// Whether an instruction, where it is a return from a constructor, comes after another one was called.
    pub fn is_finished(&self, op: &Op) -> bool
        ensures { result ≡ spec.is_finished (row op.now) (state_in self.now) }
    {
        match op {
            Op::Simple(simple) => self.simple_is_finished(*simple),
            _ => true,
        }
    }

    /// Whether the operand stack is no deeper than that.
    pub fn is_shallow(&self, max_stack: u16) -> bool
        ensures { result ≡ nat_le (length self.now.types.stack) max_stack }
    {
        self.types.depth() <= usize::from(max_stack)
    }

    /// Whether there are no more local variables than that.
    pub fn has_locals(&self, max_locals: u16) -> bool
        ensures { result ≡ nat_le (length self.now.types.locals) max_locals }
    {
        self.types.local_count() <= usize::from(max_locals)
    }
}
