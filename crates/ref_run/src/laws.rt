//! What the replay of a history says of the machine that made it.

ghost use Rattle.ref_run.specs.Agreement.{ReplaysAgree};

/// A legal history of any number of carriers, run again, comes to the state that the program has after it, unless memory runs out.
pub fn replays_agree()
    ensures { ReplaysAgree }
{}
