//! A machine keeps a history, so a lock can keep the machine.

use crate::machine::Machine;
use history::{Entry, Kept};
use ref_model::Limits;
use startup::ReadyProgram;

/// A machine keeps the entries of its history. What it was given and its number of carriers stay.
impl<'p> Kept for Machine<'p> {
    type Setting = (ReadyProgram, u32, Limits, u32);

    ghost history = { λ m. m.history };

    ghost setting = { λ m. (m.setting.world, m.setting.main, m.setting.limits, m.carriers) };

    fn entries(&self) -> &[Entry] {
        self.history()
    }
}
