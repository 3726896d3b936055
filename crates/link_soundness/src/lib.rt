//! What linking gives a program with the built-in classes: laws on the definitions, each as a call that does nothing.
#![tactic(auto)]

ghost use Rattle.link_soundness.specs.Begins.{LinkedProgramsBegin};
ghost use Rattle.link_soundness.specs.FirstValues.{LinkedStatesFit, LinkedStaticsFit};
ghost use Rattle.link_soundness.specs.Names.{LinkedCodeIsNamed, LinkedFieldsHaveKinds};
ghost use Rattle.link_soundness.specs.OpeningClasses.{LinkedClassesOpen};

/// The instructions of a program that links, with the built-in classes, name what their steps ask for, in each memory (JVMS 5.4.3, 5.4.6,
/// 6.5).
pub fn linked_code_is_named()
    ensures { LinkedCodeIsNamed }
{}

/// The values of each field of a program that links have a kind: no field is of float or double.
pub fn linked_fields_have_kinds()
    ensures { LinkedFieldsHaveKinds }
{}

/// Main and the class initializers of a program that links, with the built-in classes, have code, and main has a local variable for its
/// array (JVMS 2.9.2, 4.6, 4.7.3, JLS 12.1.4).
pub fn linked_programs_begin()
    ensures { LinkedProgramsBegin }
{}

/// The first values of the static fields of such a program are of the kinds of their fields, and the states of a thread have a reference and
/// an int (JVMS 4.7.2, 5.5).
pub fn linked_values_fit()
    ensures statics { LinkedStaticsFit }
    ensures states { LinkedStatesFit }
{}

/// The classes of which the opening heap has objects are in such a program, where it has a main method (JVMS 5.2, JLS 12.1.4).
pub fn linked_classes_open()
    ensures { LinkedClassesOpen }
{}
