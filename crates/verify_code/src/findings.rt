//! What is found at one instruction, and the first rule that is broken there (JVMS 4.10.1).

ghost use Rattle.std.specs.Prelude.{◌≡◌, Some, not, true};
ghost use Rattle.items.specs.First.{first_some};
ghost use Rattle.verify_types.specs.Faults.{is_why};
ghost use Rattle.verify_code.specs.Findings.{findings_whys};

use instruction_rows::RowWhy;
use verify_types::VerifyWhy;

/// What is found before an instruction is typed.
#[derive(Clone, Copy)]
pub struct Findings {
    /// Each target is one.
    pub are_targets: bool,
    /// The state in which the method begins fits the frame of the map here.
    pub arrives: bool,
    pub is_shallow: bool,
    pub has_locals: bool,
    /// Each exception handler takes what is thrown here.
    pub are_satisfied: bool,
    pub is_returned: bool,
    pub is_finished: bool,
    /// The code goes on after its last instruction.
    pub passes_end: bool,
}

impl Findings {
    /// The first rule that is broken, where the instruction keeps its own: `fits` says that the state after it fits where it
    /// goes, and `is_shallow` that its operand stack is no deeper than it may be. `None`: there is none.
    pub fn why(&self, fits: bool, is_shallow: bool) -> Option<VerifyWhy>
        ensures { result ≡ first_some (findings_whys self.now (λ rule. true) fits is_shallow) }
    {
        if !self.are_targets {
            Some(VerifyWhy::Target)
        } else if !(self.arrives && fits) {
            Some(VerifyWhy::Frame)
        } else if !(self.is_shallow && is_shallow) {
            Some(VerifyWhy::Depth)
        } else if !self.has_locals {
            Some(VerifyWhy::Locals)
        } else if !self.are_satisfied {
            Some(VerifyWhy::Handler)
        } else if !self.is_returned {
            Some(VerifyWhy::Return)
        } else if !self.is_finished {
            Some(VerifyWhy::Init)
        } else if self.passes_end {
            Some(VerifyWhy::End)
        } else {
            None
        }
    }

    /// The first rule that is broken, where the instruction breaks this one of its own.
    pub fn why_broken(&self, why: RowWhy) -> VerifyWhy
        ensures { Some result ≡
            first_some (findings_whys self.now (λ rule. not (is_why rule why)) true true) }
    {
        if !self.are_targets {
            return VerifyWhy::Target;
        }
        if !self.arrives {
            return VerifyWhy::Frame;
        }
        match why {
            RowWhy::Kind => VerifyWhy::Kind,
            RowWhy::Depth => VerifyWhy::Depth,
            _ if !self.is_shallow => VerifyWhy::Depth,
            RowWhy::Locals => VerifyWhy::Locals,
            RowWhy::Init if !self.has_locals => VerifyWhy::Locals,
            RowWhy::Init if !self.are_satisfied => VerifyWhy::Handler,
            RowWhy::Init if !self.is_returned => VerifyWhy::Return,
            RowWhy::Init => VerifyWhy::Init,
        }
    }
}
