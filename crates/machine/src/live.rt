//! The threads that an answer lists.

ghost use Rattle.std.specs.Prelude.{◌≡◌, ◌++◌, [], ◌∷◌, IfOk, OnOk, if◌then◌else◌, length};
ghost use Rattle.machine.specs.Live.{live_below, mounted_threads, of_carrier};

use items::NoMemory;
use std::alloc::Global;
use vthread_state::ThreadTable;

// Appends a number, if it is wanted.
fn push_if(numbers: &mut Vec<u32>, number: u32, wanted: bool) -> Result<(), NoMemory>
    ensures { OnOk result (numbers.new.items
        ≡ (if wanted then numbers.old.items ++ number ∷ [] else numbers.old.items)) }
{
    if wanted {
        numbers.push(number)?;
    }
    Ok(())
}

/// The numbers of the live threads of a table, rising.
pub(crate) fn live_in(alloc: Global, table: &ThreadTable) -> Result<Vec<u32>, NoMemory>
    ensures { IfOk result (λ live. live.items
        ≡ live_below table.now.threads (length table.now.threads)) }
{
    let mut live = Vec::new(alloc);
    for t in 0..table.count() {
        push_if(&mut live, t, table.is_alive(t))?;
    }
    Ok(live)
}

// Appends the thread that a carrier has mounted, if any.
fn push_mounted(threads: &mut Vec<u32>, thread: Option<u32>) -> Result<(), NoMemory>
    ensures { OnOk result (threads.new.items ≡ threads.old.items ++ of_carrier thread) }
{
    if let Some(t) = thread {
        threads.push(t)?;
    }
    Ok(())
}

/// The threads that carriers have mounted, in the order of the carriers.
pub(crate) fn mounted_in(alloc: Global, mounted: &[Option<u32>]) -> Result<Vec<u32>, NoMemory>
    ensures { IfOk result (λ threads. threads.items ≡ mounted_threads mounted.now) }
{
    let mut threads = Vec::new(alloc);
    for thread in mounted {
        push_mounted(&mut threads, *thread)?;
    }
    Ok(threads)
}
