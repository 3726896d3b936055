//! A value that keeps a history, in memory of its own.

use crate::entry::Entry;
use crate::kept::Kept;
use items::Boxed;

/// A box keeps what the value in it keeps.
impl<V: Kept> Kept for Boxed<V> {
    type Setting = V::Setting;

    ghost history = { V.history };

    ghost setting = { V.setting };

    fn entries(&self) -> &[Entry] {
        self.get().entries()
    }
}
