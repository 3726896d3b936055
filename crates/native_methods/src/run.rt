//! Native methods on a thread: the arguments are read, and the answer takes their place.

ghost use Rattle.std.specs.Prelude.{◌≡◌, ◌≤◌, IfOk, Some, length};
ghost use Rattle.ref_model.specs.Natives.{native_takes};
ghost use Rattle.ref_model.specs.Operands.{FindsArguments, HasOperands};
ghost use Rattle.heap_instructions.specs.Operands.{ChangesOperands, HasTop, operands};
ghost use Rattle.heap_instructions.specs.Outcomes.{Acts, KeptUnlessDone};
ghost use Rattle.native_methods.specs.Arguments as spec;
ghost use Rattle.native_methods.specs.Arguments.{native_effect};
ghost use Rattle.native_methods.specs.NativeStates.{AnswersOn, KeptIfThrownOrAsked, StaysIfThrownOrAsked, with_natives};

use crate::answer::{Answer, outcome_of};
use crate::answers::{
    on_int, on_int_and_reference, on_long, on_long_and_reference, on_nothing, on_reference,
    on_two_references,
};
use crate::arguments::{Arguments, takes};
use crate::state::NativeState;
use crate::world::NativeWorld;
use continuation::Mounted;
use heap_instructions::{Outcome, int_operand, long_operand, reference_operand};
use items::NoMemory;
use lib_table::Native;
use std::alloc::Global;

// What a native method answers to its arguments, which lie on the operands.
fn answer_of<W: NativeWorld>(
    alloc: Global,
    world: &W,
    native: Native,
    arguments: Arguments,
    state: &mut NativeState,
    mounted: &Mounted,
) -> Result<Answer, NoMemory>
    requires takes { Some (spec.kinds_of arguments) ≡ native_takes native }
    requires given { HasOperands (spec.kinds_of arguments) 0 (operands mounted.now) }
    ensures answer { IfOk result (AnswersOn (W.world world.now) native (operands mounted.now)
        (spec.slots_of arguments) state.old state.new) }
    ensures kept { IfOk result (λ a. KeptIfThrownOrAsked a state.old state.new) }
    ensures within { spec.slots_of arguments ≤ length (operands mounted.now) }
{
    match arguments {
        Arguments::Nothing => Ok(on_nothing(state, native)),
        Arguments::Reference => {
            let this = reference_operand(mounted, 0);
            on_reference(alloc, world, native, state, this)
        }
        Arguments::TwoReferences => {
            let other = reference_operand(mounted, 0);
            let this = reference_operand(mounted, 1);
            on_two_references(alloc, world, native, state, this, other)
        }
        Arguments::IntAndReference => {
            let n = int_operand(mounted, 0);
            let this = reference_operand(mounted, 1);
            on_int_and_reference(alloc, world, native, state, this, n)
        }
        Arguments::LongAndReference => {
            let n = long_operand(mounted, 0);
            let this = reference_operand(mounted, 2);
            on_long_and_reference(alloc, world, native, state, this, n)
        }
        Arguments::Int => {
            let n = int_operand(mounted, 0);
            on_int(alloc, world, native, state, n)
        }
        Arguments::Long => {
            let n = long_operand(mounted, 0);
            on_long(alloc, world, native, state, n)
        }
    }
}

/// Does what a native method does in place of code. Those of threads, monitors and the clock ask it.
pub fn run_native<W: NativeWorld>(
    alloc: Global,
    world: &W,
    native: Native,
    state: &mut NativeState,
    mounted: &mut Mounted,
) -> Result<Outcome, NoMemory>
    requires top { HasTop mounted.old }
    requires arguments { FindsArguments (W.world world.now) native (operands mounted.old) }
    ensures effect { IfOk result (λ o. Acts (native_effect (W.world world.now) native)
        (with_natives state.old) mounted.old (with_natives state.new) mounted.new o) }
    ensures kept { IfOk result (λ o. KeptUnlessDone o mounted.old mounted.new) }
    ensures kept_state { IfOk result (λ o. StaysIfThrownOrAsked o state.old state.new) }
    ensures only { ChangesOperands mounted.old mounted.new }
{
    let arguments = takes(native);
    let answer = answer_of(alloc, world, native, arguments, state, mounted)?;
    Ok(outcome_of(mounted, arguments.slots(), answer))
}
