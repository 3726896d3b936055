//! That each step of the reference machine keeps to the typing of its program, and that its opening does: laws on the definitions of
//! `ref_model` and `typed_frames`, each as a call that does nothing.
#![tactic(auto)]

ghost use Rattle.step_soundness.specs.StepLaws.{RunningIsTyped, FramesKeep, InvocationsGoOn, StepKeeps, TimeKeeps, RunsAreSuch, SelectionFits};
ghost use Rattle.step_soundness.specs.MethodKinds.{InvocationsFit};
ghost use Rattle.step_soundness.specs.OpeningLaws.{OpeningIsTyped, DimensionsAreThere, MainIsFound, InitializersAreSuch};

/// In a state that keeps to the typing a thread that runs has frames that do, and others that do may take their place (JVMS 4.10.1.6).
pub fn threads_keep()
    ensures running { RunningIsTyped }
    ensures frames { FramesKeep }
{}

/// An invocation that isn't local, of a method that fits what its instruction names, leaves frames that keep to the typing (JVMS 5.4.6, 6.5).
pub fn invocations_go_on()
    ensures { InvocationsGoOn }
{}

/// A step of a thread leaves a state that keeps to the typing, where the constant of its instruction names what linking gives there: an
/// instruction, a request, the end of a wait, or an exception on its way (JVMS 2.10, 2.11, 4.10.1.6, 6.5).
pub fn steps_keep()
    ensures { StepKeeps }
{}

/// Time that goes on leaves one too.
pub fn time_keeps()
    ensures { TimeKeeps }
{}

/// The `run` that is selected for a Thread object takes nothing, and is a method of objects (JVMS 5.4.6).
pub fn runs_are_such()
    ensures { RunsAreSuch }
{}

/// The state in which a linked program begins keeps to the typing, by what linking gives (JVMS 2.9.2, 5.5).
pub fn openings_are_typed()
    ensures { OpeningIsTyped }
{}

/// What a linked world has without a test: array types of one dimension at least, a main method that takes an array of Strings, and class
/// initializers that are static and take nothing (JVMS 2.9.2, 4.3.2, JLS 12.1.4).
pub fn linked_worlds_open()
    ensures dimensions { DimensionsAreThere }
    ensures main { MainIsFound }
    ensures initializers { InitializersAreSuch }
{}

/// Selection finds a method with the signature and the name of the one that is named, and one of objects as that is. So a step has to look at
/// the method that is named alone, where native methods fit their descriptors (JVMS 5.4.5, 5.4.6).
pub fn selections_fit()
    ensures selected { SelectionFits }
    ensures invocations { InvocationsFit }
{}
