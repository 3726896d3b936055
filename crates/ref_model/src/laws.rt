//! What holds of the definitions in specs/, each as a call that does nothing.

ghost use Rattle.ref_model.specs.StepLaws.{PrefixesRun, RowsChangeTops, LocalSteps, EntriesAreLocal};

/// A history that runs has run up to each of its entries.
pub fn prefixes_run()
    ensures { PrefixesRun }
{}

/// A local instruction changes the frames of its thread alone: the heap, the static fields, the output and all other
/// threads stay as they are, and so do the frames below the two on top.
pub fn local_steps_stay_in_their_frames()
    ensures tops { RowsChangeTops }
    ensures steps { LocalSteps }
{}

/// All steps of an entry but the last are local instructions.
pub fn entries_are_local()
    ensures { EntriesAreLocal }
{}
