//! What holds of the definitions in specs/, each as a call that does nothing.

ghost use Rattle.instruction_rows.specs.Soundness.{RowsKeepKinds, RowsAreSound};
ghost use Rattle.instruction_rows.specs.Marks.{RowsAreMarked, RowsDivideByZero};

/// A local row that fits the types of a frame is defined on each frame that has their kinds, unless it divides by 0.
/// What it leaves has the kinds of what the typing leaves, and it leads to the next instruction or to one of its
/// targets (JVMS 4.10.1.9, 6.5). The rows of the table meet what that asks of a row.
pub fn rows_keep_kinds()
    ensures keeps { RowsKeepKinds }
    ensures sound { RowsAreSound }
{}

/// An instruction is marked local exactly where its row reads and writes only slots. Such a row
/// divides by 0 exactly where its instruction is idiv, irem, ldiv or lrem and the divisor on the stack is 0; it is
/// undefined there.
pub fn rows_are_marked()
    ensures marks { RowsAreMarked }
    ensures zero { RowsDivideByZero }
{}
