//! Who owns each monitor.

ghost use Rattle.std.specs.Prelude.{◌≡◌, ◌≢◌, ◌==◌, ℕ, None, Some, IfOk, OnOk, if◌then◌else◌, nat_eq};
ghost use Rattle.std.specs.HashMap.{get};
ghost use Rattle.std.specs.Option.{option_map};
ghost use Rattle.ref_model.specs.Monitors as monitors;
ghost use Rattle.ref_run.specs.Owners.{meaning_of, owner_of};

use items::NoMemory;
use std::collections::HashMap;

/// The thread that owns a monitor, and how often it has entered it.
#[derive(Clone, Copy)]
pub(crate) struct Owner {
    pub(crate) thread: u32,
    pub(crate) count: u32,
}

/// Whether this thread is the owner.
pub(crate) fn is_owner(t: u32, owner: Option<Owner>) -> bool
    ensures { result ≡ monitors.is_owner t (owner_of owner) }
{
    match owner {
        Some(owner) => owner.thread == t,
        None => false,
    }
}

/// Whether nobody is, or this thread.
pub(crate) fn is_open_to(t: u32, owner: Option<Owner>) -> bool
    ensures { result ≡ monitors.is_open_to t (owner_of owner) }
{
    match owner {
        Some(owner) => owner.thread == t,
        None => true,
    }
}

/// The owner when the monitor is entered once more.
pub(crate) fn entered_once(t: u32, owner: Option<Owner>) -> Result<Owner, NoMemory>
    ensures { IfOk result (λ entered. meaning_of entered
        ≡ monitors.entered_once t (owner_of owner)) }
{
    match owner {
        Some(owner) => {
            let count = owner.count.checked_add(1).ok_or(NoMemory)?;
            Ok(Owner {
                thread: owner.thread,
                count,
            })
        }
        None => Ok(Owner {
            thread: t,
            count: 1,
        }),
    }
}

/// The owner when the monitor is left once.
pub(crate) fn left_once(owner: Option<Owner>) -> Option<Owner>
    ensures { owner_of result ≡ monitors.left_once (owner_of owner) }
{
    let owner = owner?;
    if owner.count == 1 {
        return None;
    }
    Some(Owner {
        thread: owner.thread,
        count: owner.count.saturating_sub(1),
    })
}

/// How often the owner has entered the monitor.
pub(crate) fn times_entered(owner: Option<Owner>) -> u32
    ensures { result ≡ monitors.times_entered (owner_of owner) }
{
    match owner {
        Some(owner) => owner.count,
        None => 0,
    }
}

/// The owner of a monitor.
pub(crate) fn find(owners: &HashMap<u32, Owner>, o: u32) -> Option<Owner>
    ensures { result ≡ get nat_eq owners.now o }
{
    owners.get(&o).copied()
}

/// A monitor has this owner now, or none.
pub(crate) fn put(
    owners: &mut HashMap<u32, Owner>,
    o: u32,
    owner: Option<Owner>,
) -> Result<(), NoMemory>
    ensures now { OnOk result (get nat_eq owners.new o ≡ owner) }
    ensures others { OnOk result
        ((p : ℕ) → p ≢ o → get nat_eq owners.new p ≡ get nat_eq owners.old p) }
{
    match owner {
        Some(owner) => {
            owners.insert(o, owner)?;
        }
        None => {
            let _ = owners.remove(&o);
        }
    }
    Ok(())
}
