//! The instructions that read and write their own frame alone (JVMS 4.10.1.9).

ghost use Rattle.std.specs.Prelude.{◌≡◌};
ghost use Rattle.instruction_rows.specs.Results.{◌then◌};
ghost use Rattle.instruction_rows.specs.Table.{row, simple_row};
ghost use Rattle.instruction_rows.specs.TypeEffect as spec;
ghost use Rattle.verify_instructions.specs.Answers.{Leaves};
ghost use Rattle.verify_instructions.specs.Rows.{local_types};

use crate::stop::Stop;
use crate::types::Types;
use opcodes::{Op, Simple, ValueKind};
use stack_maps::VType;

impl Types {
    // Takes values of these kinds, the topmost first.
    fn take(&mut self, kinds: &[ValueKind]) -> Result<(), Stop>
        ensures { Leaves result self.new
            (spec.types_popped kinds.now self.old.stack then λ stack.
            spec.types_on self.old.locals stack) }
    {
        self.pop_kinds(kinds)
    }

    // Takes values of these kinds, the topmost first, and pushes one of this type.
    fn calculate(&mut self, kinds: &[ValueKind], gives: VType) -> Result<(), Stop>
        ensures { Leaves result self.new
            (spec.types_popped kinds.now self.old.stack then λ stack.
            spec.types_on self.old.locals (spec.type_pushed gives stack)) }
    {
        self.pop_kinds(kinds)?;
        self.push(gives)
    }

    // An instruction without operands in the code.
    pub fn simple_local(&mut self, simple: Simple) -> Result<(), Stop>
        ensures { Leaves result self.new (local_types (simple_row simple) self.old) }
    {
        match simple {
            Simple::Nop => Ok(()),
            Simple::PushNull => self.push(VType::Null),
            Simple::Pop => self.pop_one(),
            Simple::Pop2 => self.pop_two(),
            Simple::Dup => self.dup(),
            Simple::DupX1 => self.dup_x1(),
            Simple::DupX2 => self.dup_x2(),
            Simple::Dup2 => self.dup2(),
            Simple::Dup2X1 => self.dup2_x1(),
            Simple::Dup2X2 => self.dup2_x2(),
            Simple::Swap => self.swap(),
            Simple::IntBinary(_) => self.calculate(&[ValueKind::Int, ValueKind::Int], VType::Int),
            Simple::LongBinary(_) => self.calculate(
                &[ValueKind::Long, ValueKind::Long],
                VType::Long,
            ),
            Simple::LongShift(_) => self.calculate(&[ValueKind::Int, ValueKind::Long], VType::Long),
            Simple::IntNegate => self.calculate(&[ValueKind::Int], VType::Int),
            Simple::LongNegate => self.calculate(&[ValueKind::Long], VType::Long),
            Simple::IntToLong => self.calculate(&[ValueKind::Int], VType::Long),
            Simple::LongToInt => self.calculate(&[ValueKind::Long], VType::Int),
            Simple::IntNarrow(_) => self.calculate(&[ValueKind::Int], VType::Int),
            Simple::LongCompare => self.calculate(&[ValueKind::Long, ValueKind::Long], VType::Int),
            Simple::ArrayLoad(_)
            | Simple::ArrayStore(_)
            | Simple::ReturnValue(_)
            | Simple::Return
            | Simple::ArrayLength
            | Simple::Throw
            | Simple::MonitorEnter
            | Simple::MonitorExit => Ok(()),
        }
    }

    /// What a local instruction does to the types of its frame. Every other instruction leaves them as they are.
    pub fn local_row(&mut self, op: &Op) -> Result<(), Stop>
        ensures { Leaves result self.new (local_types (row op.now) self.old) }
    {
        match op {
            Op::Simple(simple) => self.simple_local(*simple),
            Op::PushInt(_) => self.push(VType::Int),
            Op::PushLong(_) => self.push(VType::Long),
            Op::Load(kind, n) => self.load(*kind, *n),
            Op::Store(kind, n) => self.store(*kind, *n),
            Op::Increment(n, _) => self.increment(*n),
            Op::IfZero(_, _) => self.take(&[ValueKind::Int]),
            Op::IfInts(_, _) => self.take(&[ValueKind::Int, ValueKind::Int]),
            Op::IfReferences(_, _) => self.take(&[ValueKind::Reference, ValueKind::Reference]),
            Op::IfNull(_, _) => self.take(&[ValueKind::Reference]),
            Op::Goto(_) => Ok(()),
            Op::TableSwitch(_) => self.take(&[ValueKind::Int]),
            Op::LookupSwitch(_) => self.take(&[ValueKind::Int]),
            _ => Ok(()),
        }
    }
}
