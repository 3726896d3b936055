//! The permits and the interrupt status of threads, and the calls that change them.

ghost use Rattle.std.specs.Prelude.{◌≡◌, ◌<◌, [], ◌∷◌, ◌++◌, length, false, true, Some, slice_get, slice_set, IfOk, OnOk, OnErr};

use items::NoMemory;
use std::alloc::Global;
use std::marker::Model;

/// The permit and the interrupt status of each thread, by the thread's number. A new thread has neither.
#[derive(Drop)]
pub struct Wakes {
    permits: Vec<bool>,
    interrupts: Vec<bool>,
}

impl Model for Wakes {
    ghost use Rattle.wakes.specs.Flags.{Flags};

    ghost Value = { Flags };

    ghost view = { λ a. record { permits = a.permits.items; interrupts = a.interrupts.items } };

    ghost use Rattle.std.specs.Prelude.{◌≡◌, vec_len};

    ghost invariant = { λ a. vec_len a.permits ≡ vec_len a.interrupts };
}

impl Wakes {
    /// No threads.
    pub fn new(alloc: Global) -> Result<Self, NoMemory>
        ensures { IfOk result (λ wakes. wakes ≡ record { permits = []; interrupts = [] }) }
    {
        Ok(Wakes {
            permits: Vec::new(alloc),
            interrupts: Vec::new(alloc),
        })
    }

    /// One more thread, whose number is that of the threads before it. Where memory runs out nothing changes.
    pub fn add(&mut self) -> Result<(), NoMemory>
        ensures permits { OnOk result (self.new.permits ≡ self.old.permits ++ false ∷ []) }
        ensures interrupts { OnOk result (self.new.interrupts ≡ self.old.interrupts ++ false ∷ []) }
        ensures err { OnErr result (self.new ≡ self.old) }
    {
        self.permits.reserve(1)?;
        self.interrupts.reserve(1)?;
        self.permits.push_reserved(false);
        self.interrupts.push_reserved(false);
        Ok(())
    }

    /// How many threads there are.
    pub fn count(&self) -> usize
        ensures permits { result ≡ length self.now.permits }
        ensures interrupts { result ≡ length self.now.interrupts }
    {
        self.permits.len()
    }

    /// Makes a thread's permit available. Permits don't add up (`LockSupport.unpark`).
    pub fn unpark(&mut self, t: u32)
        requires { t < length self.old.permits }
        ensures { self.new ≡ record self.old { permits = slice_set self.old.permits t true } }
    {
        self.permits[t as usize] = true;
    }

    /// Whether a thread's permit is available.
    pub fn permit(&self, t: u32) -> bool
        requires { t < length self.now.permits }
        ensures { slice_get self.now.permits t ≡ Some result }
    {
        self.permits[t as usize]
    }

    /// Takes a thread's permit, and says whether it was available (`LockSupport.park`).
    pub fn take_permit(&mut self, t: u32) -> bool
        requires { t < length self.old.permits }
        ensures was { slice_get self.old.permits t ≡ Some result }
        ensures after { self.new ≡ record self.old {
          permits = slice_set self.old.permits t false;
        } }
    {
        let available = self.permits[t as usize];
        self.permits[t as usize] = false;
        available
    }

    /// Sets a thread's interrupt status (`Thread.interrupt`).
    pub fn interrupt(&mut self, t: u32)
        requires { t < length self.old.interrupts }
        ensures { self.new ≡ record self.old {
          interrupts =
              slice_set self.old.interrupts t true;
        } }
    {
        self.interrupts[t as usize] = true;
    }

    /// Whether a thread's interrupt status is set (`Thread.isInterrupted`).
    pub fn interrupted(&self, t: u32) -> bool
        requires { t < length self.now.interrupts }
        ensures { slice_get self.now.interrupts t ≡ Some result }
    {
        self.interrupts[t as usize]
    }

    /// Clears a thread's interrupt status, and says whether it was set (`Thread.interrupted`).
    pub fn take_interrupt(&mut self, t: u32) -> bool
        requires { t < length self.old.interrupts }
        ensures was { slice_get self.old.interrupts t ≡ Some result }
        ensures after { self.new ≡ record self.old {
          interrupts =
              slice_set self.old.interrupts t false;
        } }
    {
        let set = self.interrupts[t as usize];
        self.interrupts[t as usize] = false;
        set
    }
}
