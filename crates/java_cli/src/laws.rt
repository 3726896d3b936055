//! Laws of the definitions, each the contract of a function that does nothing.

ghost use Rattle.std.specs.Prelude.{List};
ghost use Rattle.std.specs.List.{AllByRecursion};
ghost use Rattle.arguments.specs.Commands.{Run};
ghost use Rattle.input_files.specs.Contents.{Contents};
ghost use Rattle.java_cli.specs.Causes.{AreBytes, OneIsDue};

/// Exactly one answer is due to a command whose files have these bytes.
pub fn one_answer()
    ensures { (c : Run) (contents : List Contents) →
        AllByRecursion AreBytes contents → OneIsDue c contents }
{}
