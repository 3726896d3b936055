//! That what the instruction at hand takes lies on the operand stack, since frames keep to the typing. Laws on the definitions, as a call that
//! does nothing.
#![tactic(auto)]

ghost use Rattle.operand_soundness.specs.OperandLaws.{NativeArgumentsAreThere, NextOperandsAreThere};

/// Of a thread whose frames keep to the typing, the operands of its next instruction are there, and the arguments of the native method that it
/// comes to (JVMS 4.10.1, 6.5).
pub fn next_operands_are_there()
    ensures operands { NextOperandsAreThere }
    ensures natives { NativeArgumentsAreThere }
{}
