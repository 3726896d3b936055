ghost use Rattle.std.specs.Prelude.{◌≡◌, ◌<◌, ◌^◌, List, length};
ghost use Rattle.history.specs.declared.entry.Entry.{Entry as OneEntry};

use crate::entry::Entry;

/// A value that keeps a history.
pub trait Kept {
    /// What the value was made with, which no call changes.
    type Setting;

    /// The entries that the value keeps, in order.
    ghost history: { Self → List OneEntry };

    /// The value's setting.
    ghost setting: { Self → Self.Setting };

    /// The entries that the value keeps, in order. This takes no memory.
    fn entries(&self) -> &[Entry]
        ensures entries { result.now ≡ history self.now }
        ensures bound { length (history self.now) < 2 ^ 64 };
}
