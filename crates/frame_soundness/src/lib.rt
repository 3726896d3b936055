//! That the frames of a thread keep to the typing of its program: laws on the definitions of `ref_model` and `verify_types`, each as a
//! call that does nothing.
#![tactic(auto)]

ghost use Rattle.frame_soundness.specs.LocalLaws.{RowsGoOn, ConstantsGoOn, WideConstantsGoOn, ReturnsGoOn, StaticCallsGoOn, RowKeeps, RowsKeep};
ghost use Rattle.frame_soundness.specs.EventLaws.{StaticGetsKeep, StaticPutsKeep, FieldGetsKeep, FieldPutsKeep, ArrayLoadsKeep, ArrayStoresKeep, LengthsKeep, CastsKeep, JudgementsKeep, NewObjectsKeep, NewArraysKeep, NewArraysOfArraysKeep};
ghost use Rattle.frame_soundness.specs.CallLaws.{CalleesBegin, CallersWait};
ghost use Rattle.frame_soundness.specs.EnterLaws.{MethodsAreEntered, StaticsAreEntered};
ghost use Rattle.frame_soundness.specs.OperandLaws.{OperandsAreThere, ArgumentsAreThere, StaticArgumentsAreThere};
ghost use Rattle.frame_soundness.specs.NativeLaws.{NativesKeep, NativesGoOn};
ghost use Rattle.frame_soundness.specs.NativeKinds.{TypesHaveKinds, NativesTake};
ghost use Rattle.frame_soundness.specs.StepKinds.{EventsGoOn};
ghost use Rattle.frame_soundness.specs.ThrowLaws.{ThrowsKeep, FramesAreLeft, HandlersGoOn, ThrowingKeeps, RaisesKeep};

/// A local instruction of frames that keep to the typing is defined, unless it divides by 0 or returns from a root frame, and leaves
/// frames that keep to it (JVMS 4.10.1.6).
pub fn local_instructions_go_on()
    ensures rows { RowsGoOn }
    ensures constants { ConstantsGoOn }
    ensures wide_constants { WideConstantsGoOn }
    ensures returns { ReturnsGoOn }
    ensures static_calls { StaticCallsGoOn }
    ensures row { RowKeeps }
    ensures keep { RowsKeep }
{}

/// An exception that leaves frames, or is caught in one, leaves frames that keep to the typing (JVMS 2.10, 4.10.1.6).
pub fn exceptions_go_on()
    ensures throws { ThrowsKeep }
    ensures left { FramesAreLeft }
    ensures handled { HandlersGoOn }
    ensures throwing { ThrowingKeeps }
    ensures raises { RaisesKeep }
{}

/// Fields keep kinds: what is got of a field has the kind of its type, and what is put keeps the memory's values of their kinds (JVMS 6.5,
/// 2.11.1).
pub fn fields_keep_kinds()
    ensures static_gets { StaticGetsKeep }
    ensures static_puts { StaticPutsKeep }
    ensures gets { FieldGetsKeep }
    ensures puts { FieldPutsKeep }
{}

/// Arrays keep kinds: what is loaded has the kind of the elements, and what is stored keeps the memory's values of their kinds (JVMS 6.5,
/// 2.11.1).
pub fn arrays_keep_kinds()
    ensures loads { ArrayLoadsKeep }
    ensures stores { ArrayStoresKeep }
    ensures lengths { LengthsKeep }
{}

/// Objects keep kinds: a cast leaves a reference, instanceof an int, and new objects and arrays have values of the kinds of their fields and
/// elements (JVMS 6.5, 2.3, 2.4).
pub fn objects_keep_kinds()
    ensures casts { CastsKeep }
    ensures judgements { JudgementsKeep }
    ensures objects { NewObjectsKeep }
    ensures arrays { NewArraysKeep }
    ensures arrays_of_arrays { NewArraysOfArraysKeep }
{}

/// Native methods keep kinds: each leaves the memory's values of their kinds, and gives back a value of its descriptor's kind, or none (the
/// API of `Object`, `String`, `StringBuilder`, `PrintStream` and `System`). What it takes are the kinds of a table, and each type of a
/// descriptor but float and double has a kind.
pub fn natives_keep_kinds()
    ensures answers { NativesKeep }
    ensures operands { NativesGoOn }
    ensures takes { NativesTake }
    ensures types { TypesHaveKinds }
{}

/// The frame of a method of an object keeps to the typing when it begins, and its caller waits for what the method gives back (JVMS 2.6.1,
/// 4.10.1.6).
pub fn callees_begin()
    ensures begin { CalleesBegin }
    ensures wait { CallersWait }
{}

/// An instruction on fields, arrays or objects that is done leaves frames that keep to the typing, and a memory whose values have the kinds
/// of their fields and elements; where it throws, nothing else changes (JVMS 6.5, 4.10.1.6).
pub fn events_go_on()
    ensures { EventsGoOn }
{}

/// A method of an object that was selected, and a static one, is entered: a native one is done, and the frame goes on; one with code begins,
/// and the frame waits below it. All frames keep to the typing, and the memory's values to their kinds (JVMS 2.6.1, 5.4.6, 6.5).
pub fn methods_are_entered()
    ensures of_objects { MethodsAreEntered }
    ensures of_classes { StaticsAreEntered }
{}

/// The operands of the instruction at hand are there, each of its kind, where frames keep to the
/// typing (JVMS 2.6.2, 4.10.1, 6.5).
pub fn operands_are_there()
    ensures { OperandsAreThere }
{}

/// So are the arguments of a native method, and the receiver below them: one that was selected for an
/// object, and a static one (JVMS 5.4.6, 6.5).
pub fn arguments_are_there()
    ensures of_objects { ArgumentsAreThere }
    ensures of_classes { StaticArgumentsAreThere }
{}
