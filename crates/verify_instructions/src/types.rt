//! The types of a frame (JVMS 4.10.1.4): values are taken and pushed, local variables read and written.

ghost use Rattle.std.specs.Prelude.{◌≡◌, length, [], ◌∷◌, Ok, Err, IfOk, MatchOption, OnOk, OnErr, ok_or, reverse, slice_set};
ghost use Rattle.instruction_rows.specs.Contents.{with_item};
ghost use Rattle.instruction_rows.specs.Kinds.{is_kind, kind_of_type};
ghost use Rattle.instruction_rows.specs.Rows as rows;
ghost use Rattle.instruction_rows.specs.Results.{◌then◌};
ghost use Rattle.instruction_rows.specs.TypeEffect as spec;
ghost use Rattle.std.specs.List.{list_any};
ghost use Rattle.std.specs.Option.{option_map};
ghost use Rattle.std.specs.Result.{result_ok};
ghost use Rattle.verify_types.specs.TypeStates.{replaced};
ghost use Rattle.verify_instructions.specs.Answers.{Gives, Leaves, Takes};
ghost use Rattle.verify_instructions.specs.Unfinished.{AreListed};
ghost use Rattle.verify_instructions.specs.Views.{is_object};

use crate::locals::Locals;
use crate::operand_stack::OperandStack;
use crate::state::Uninitialized;
use crate::stop::Stop;
use instruction_rows::{RowWhy, is_narrow, is_wide, kind_of_type};
use opcodes::ValueKind;
use stack_maps::VType;
use std::alloc::{AllocError, Global};
use std::marker::Model;

// The types of the local variables and of the operand stack.
#[derive(Drop)]
struct SlotTypes {
    locals: Locals,
    stack: OperandStack,
}

/// The types of a frame, slot by slot (JVMS 4.10.1.4). They are boxed, since a state is handed on at each instruction.
#[derive(Drop)]
pub struct Types {
    slots: Box<SlotTypes>,
}

impl Model for Types {
    ghost use Rattle.stack_maps.specs.declared.types.VType.{VType};
    ghost use Rattle.instruction_rows.specs.Contents.{Contents};

    ghost Value = { Contents VType };

    ghost use Rattle.verify_instructions.specs.Views.{types_in};

    ghost view = { types_in };
}

impl Types {
    /// The types of these slots. The last of the stack is its top.
    pub fn new(alloc: Global, locals: Vec<VType>, stack: Vec<VType>) -> Result<Self, AllocError>
        ensures { IfOk result (λ types.
            types ≡ record { locals = locals.items; stack = reverse stack.items }) }
    {
        let locals = Locals::new(alloc, locals)?;
        let stack = OperandStack::new(alloc, stack)?;
        let slots = Box::new(alloc, SlotTypes { locals, stack })?;
        Ok(Types { slots })
    }

    /// The same with another operand stack, the top of which is its last item.
    pub fn with_stack(self, alloc: Global, stack: Vec<VType>) -> Result<Self, AllocError>
        ensures locals { IfOk result (λ types. types.locals ≡ self.locals) }
        ensures stack { IfOk result (λ types. types.stack ≡ reverse stack.items) }
    {
        let Types { slots } = self;
        let mut slots = slots;
        slots.stack = OperandStack::new(alloc, stack)?;
        Ok(Types { slots })
    }

    /// The types of the local variables.
    pub fn locals(&self) -> &[VType]
        ensures { result.now ≡ self.now.locals }
    {
        self.slots.locals.as_slice()
    }

    /// Slots of local variables, among them all that hold an uninitialized object.
    pub fn unfinished(&self) -> &[usize]
        ensures { AreListed result.now self.now.locals }
    {
        self.slots.locals.unfinished()
    }

    /// The types of the operand stack, its top last.
    pub fn stack(&self) -> &[VType]
        ensures { reverse result.now ≡ self.now.stack }
    {
        self.slots.stack.as_slice()
    }

    // Takes a long.
    fn pop_long(&mut self) -> Result<VType, Stop>
        ensures popped { Takes result self.new.stack
            (spec.type_popped ValueKind.Long self.old.stack) }
        ensures locals { self.new.locals ≡ self.old.locals }
    {
        match self.slots.stack.pop() {
            None => Err(Stop::Broken(RowWhy::Depth)),
            Some(VType::Top) => match self.slots.stack.pop() {
                Some(VType::Long) => Ok(VType::Long),
                _ => Err(Stop::Broken(RowWhy::Kind)),
            },
            Some(_) => Err(Stop::Broken(RowWhy::Kind)),
        }
    }

    // Takes an int.
    fn pop_int(&mut self) -> Result<VType, Stop>
        ensures popped { Takes result self.new.stack
            (spec.type_popped ValueKind.Int self.old.stack) }
        ensures locals { self.new.locals ≡ self.old.locals }
    {
        match self.slots.stack.pop() {
            None => Err(Stop::Broken(RowWhy::Depth)),
            Some(VType::Int) => Ok(VType::Int),
            Some(_) => Err(Stop::Broken(RowWhy::Kind)),
        }
    }

    // Takes a reference.
    fn pop_reference(&mut self) -> Result<VType, Stop>
        ensures popped { Takes result self.new.stack
            (spec.type_popped ValueKind.Reference self.old.stack) }
        ensures locals { self.new.locals ≡ self.old.locals }
    {
        match self.slots.stack.pop() {
            None => Err(Stop::Broken(RowWhy::Depth)),
            Some(t) => match kind_of_type(t) {
                Some(ValueKind::Reference) => Ok(t),
                _ => Err(Stop::Broken(RowWhy::Kind)),
            },
        }
    }

    /// Takes the type of a value of this kind.
    pub fn pop_kind(&mut self, kind: ValueKind) -> Result<VType, Stop>
        ensures popped { Takes result self.new.stack (spec.type_popped kind self.old.stack) }
        ensures locals { self.new.locals ≡ self.old.locals }
    {
        match kind {
            ValueKind::Int => self.pop_int(),
            ValueKind::Long => self.pop_long(),
            ValueKind::Reference => self.pop_reference(),
        }
    }

    /// Pushes the type of a value.
    pub fn push(&mut self, t: VType) -> Result<(), Stop>
        ensures pushed { OnOk result (self.new.stack ≡ spec.type_pushed t self.old.stack) }
        ensures locals { self.new.locals ≡ self.old.locals }
        ensures full { OnErr result (result ≡ Err Stop.NoMemory) }
    {
        self.slots.stack.push(t)?;
        if is_wide(t) {
            self.slots.stack.push(VType::Top)?;
        }
        Ok(())
    }

    /// Takes the type of one slot. `None`: there is none.
    pub fn pop_slot(&mut self) -> Option<VType>
        ensures taken { MatchOption result (self.old.stack ≡ [])
            (λ t. self.old.stack ≡ t ∷ self.new.stack) }
        ensures locals { self.new.locals ≡ self.old.locals }
    {
        self.slots.stack.pop()
    }

    /// Pushes the type of one slot.
    pub fn push_slot(&mut self, t: VType) -> Result<(), Stop>
        ensures pushed { OnOk result (self.new.stack ≡ t ∷ self.old.stack) }
        ensures locals { self.new.locals ≡ self.old.locals }
        ensures full { OnErr result (result ≡ Err Stop.NoMemory) }
    {
        self.slots.stack.push(t)?;
        Ok(())
    }

    // Writes the type of a local variable.
    fn set(&mut self, n: usize, t: VType) -> Result<(), Stop>
        ensures set { Leaves result self.new.locals
            (ok_or (with_item n t self.old.locals) RowWhy.Locals) }
        ensures stack { self.new.stack ≡ self.old.stack }
    {
        if n >= self.local_count() {
            return Err(Stop::Broken(RowWhy::Locals));
        }
        self.slots.locals.set(n, t)?;
        Ok(())
    }

    /// Writes the type of a local variable, if there is one of this number.
    pub fn overwrite(&mut self, slot: usize, t: VType) -> Result<(), AllocError>
        ensures locals { OnOk result (self.new.locals ≡ slice_set self.old.locals slot t) }
        ensures stack { self.new.stack ≡ self.old.stack }
    {
        self.slots.locals.set(slot, t)
    }

    // Unsets the long or double whose second slot is this local variable.
    fn split_before(&mut self, n: usize)
        ensures locals { self.new.locals ≡ spec.without_half n self.old.locals }
        ensures stack { self.new.stack ≡ self.old.stack }
    {
        if n == 0 {
            return;
        }
        let Some(before) = self.locals().get(n - 1) else {
            return;
        };
        if is_wide(*before) {
            self.slots.locals.unset(n - 1);
        }
    }

    // Writes the type of a value to a local variable, and to the next one where it takes two.
    fn put(&mut self, t: VType, n: u16) -> Result<(), Stop>
        ensures put { Leaves result self.new.locals (spec.with_type t n self.old.locals) }
        ensures stack { self.new.stack ≡ self.old.stack }
    {
        let n = usize::from(n);
        self.split_before(n);
        self.set(n, t)?;
        if is_wide(t) {
            self.set(n + 1, VType::Top)?;
        }
        Ok(())
    }

    // The type of a local variable, which must be of this kind.
    fn local(&self, kind: ValueKind, n: u16) -> Result<VType, Stop>
        ensures { Gives result (λ t. t) (spec.local_type kind n self.now.locals) }
    {
        let Some(t) = self.locals().get(usize::from(n)) else {
            return Err(Stop::Broken(RowWhy::Locals));
        };
        if is_of_kind(*t, kind) {
            Ok(*t)
        } else {
            Err(Stop::Broken(RowWhy::Kind))
        }
    }

    /// Pushes what a local variable holds.
    pub fn load(&mut self, kind: ValueKind, n: u16) -> Result<(), Stop>
        ensures { Leaves result self.new (spec.typed (rows.load kind n) self.old) }
    {
        let t = self.local(kind, n)?;
        self.push(t)
    }

    /// Takes a value, and writes it to a local variable.
    pub fn store(&mut self, kind: ValueKind, n: u16) -> Result<(), Stop>
        ensures { Leaves result self.new (spec.typed (rows.store kind n) self.old) }
    {
        let t = self.pop_kind(kind)?;
        self.put(t, n)
    }

    /// Adds to an int in a local variable.
    pub fn increment(&mut self, n: u16) -> Result<(), Stop>
        ensures { Leaves result self.new
            (spec.local_type ValueKind.Int n self.old.locals then λ t. Ok self.old) }
    {
        self.local(ValueKind::Int, n)?;
        Ok(())
    }

    /// Takes values of these kinds, the topmost first.
    pub fn pop_kinds(&mut self, kinds: &[ValueKind]) -> Result<(), Stop>
        ensures popped { Leaves result self.new.stack (spec.types_popped kinds.now self.old.stack) }
        ensures locals { self.new.locals ≡ self.old.locals }
    {
        match kinds.split_first() {
            None => Ok(()),
            Some((kind, others)) => {
                self.pop_kind(*kind)?;
                self.pop_kinds(others)
            }
        }
    }

    /// How many slots are on the operand stack.
    pub fn depth(&self) -> usize
        ensures { result ≡ length self.now.stack }
    {
        self.slots.stack.len()
    }

    /// How many local variables there are.
    pub fn local_count(&self) -> usize
        ensures { result ≡ length self.now.locals }
    {
        self.locals().len()
    }

    /// The type of the value of this kind on top. `None`: there is none.
    pub fn peek(&self, kind: ValueKind) -> Option<VType>
        ensures { result ≡ option_map (λ x. x.0)
            (result_ok (spec.type_popped kind self.now.stack)) }
    {
        let (top, below) = self.stack().split_last()?;
        match kind {
            ValueKind::Int => match top {
                VType::Int => Some(VType::Int),
                _ => None,
            },
            ValueKind::Long => match top {
                VType::Top => match below.last() {
                    Some(VType::Long) => Some(VType::Long),
                    _ => None,
                },
                _ => None,
            },
            ValueKind::Reference => {
                if is_of_kind(*top, ValueKind::Reference) {
                    Some(*top)
                } else {
                    None
                }
            }
        }
    }

    /// Whether the object is on the operand stack.
    pub fn has_operand(&self, object: Uninitialized) -> bool
        ensures { result ≡ list_any (is_object object) self.now.stack }
    {
        self.slots.stack.has(object)
    }

    /// Gives the local variables that hold the object another type.
    pub fn replace_locals(&mut self, object: Uninitialized, t: VType)
        ensures locals { self.new.locals ≡ replaced (is_object object) t self.old.locals }
        ensures stack { self.new.stack ≡ self.old.stack }
    {
        self.slots.locals.replace(object, t);
    }

    /// Gives the operands that are the object another type.
    pub fn replace_operands(&mut self, object: Uninitialized, t: VType) -> Result<(), Stop>
        ensures stack { OnOk result
            (self.new.stack ≡ replaced (is_object object) t self.old.stack) }
        ensures locals { self.new.locals ≡ self.old.locals }
        ensures full { OnErr result (result ≡ Err Stop.NoMemory) }
    {
        self.slots.stack.replace(object, t)?;
        Ok(())
    }
}

// Whether a type is of this kind.
fn is_of_kind(t: VType, kind: ValueKind) -> bool
    ensures { result ≡ is_kind kind (kind_of_type t) }
{
    match kind_of_type(t) {
        None => false,
        Some(ValueKind::Int) => matches!(kind, ValueKind::Int),
        Some(ValueKind::Long) => matches!(kind, ValueKind::Long),
        Some(ValueKind::Reference) => matches!(kind, ValueKind::Reference),
    }
}
