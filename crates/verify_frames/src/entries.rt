//! The entries of a stack map, by rising pc.

ghost use Rattle.std.specs.Prelude.{◌≡◌};
ghost use Rattle.verify_frames.specs.Entries as spec;

use crate::frame_paths::Entry;

// Those from a pc on.
fn entries_from(entries: &[Entry], pc: u32) -> &[Entry]
    requires { spec.AreRising entries.now }
    ensures { result.now ≡ spec.entries_from pc entries.now }
{
    let n = entries.partition_point(|e| e.pc < pc);
    entries.split_at(n).1
}

// Those after a pc.
fn entries_behind(entries: &[Entry], pc: u32) -> &[Entry]
    requires { spec.AreRising entries.now }
    ensures { result.now ≡ spec.entries_behind pc entries.now }
{
    let n = entries.partition_point(|e| e.pc <= pc);
    entries.split_at(n).1
}

// The first of these, where it lies at the pc.
fn first_at(entries: &[Entry], pc: u32) -> Option<Entry>
    ensures { result ≡ spec.first_entry_at pc entries.now }
{
    match entries.first() {
        Some(entry) if entry.pc == pc => Some(*entry),
        _ => None,
    }
}

// The first of these, where it lies before the next instruction, if there is one.
fn first_stray(entries: &[Entry], next: u32, is_last: bool) -> Option<Entry>
    ensures { result ≡ spec.first_stray next is_last entries.now }
{
    match entries.first() {
        Some(entry) if is_last || entry.pc < next => Some(*entry),
        _ => None,
    }
}

/// That of the frame at a pc. `None`: there is none.
pub fn entry_at(entries: &[Entry], pc: u32) -> Option<Entry>
    requires { spec.AreRising entries.now }
    ensures { result ≡ spec.entry_at pc entries.now }
{
    first_at(entries_from(entries, pc), pc)
}

/// That of the first frame after a pc, and before the next instruction unless that is the last. `None`: there is none.
pub fn stray_entry(entries: &[Entry], pc: u32, next: u32, is_last: bool) -> Option<Entry>
    requires { spec.AreRising entries.now }
    ensures { result ≡ spec.stray_entry pc next is_last entries.now }
{
    first_stray(entries_behind(entries, pc), next, is_last)
}
