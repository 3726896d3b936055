//! The entries of a history that change the state of the Java program.

ghost use Rattle.std.specs.Prelude.{◌≡◌, IfOk};
ghost use Rattle.history.specs.Java.{is_java, java as java_of};

use crate::entry::{Entry, What};
use items::NoMemory;
use std::alloc::Global;

/// The entries that change the state of the Java program: steps and times.
pub fn java(alloc: Global, history: &[Entry]) -> Result<Vec<Entry>, NoMemory>
    ensures { IfOk result (λ v. v.items ≡ java_of history.now) }
{
    let entries = history
        .iter()
        .filter(|entry| is_java_entry(entry.what))
        .copied()
        .collect(alloc)?;
    Ok(entries)
}

fn is_java_entry(what: What) -> bool
    ensures { result ≡ is_java what }
{
    matches!(what, What::Step { .. } | What::Clock(_))
}
