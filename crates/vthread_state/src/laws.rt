//! Laws of the table. The function does nothing: its contract is the laws.

ghost use Rattle.std.specs.Prelude.{◌≡◌, ◌≢◌, ℕ, Some, length};
ghost use Rattle.vthread_state.specs.declared.thread.Thread.{Thread as OneThread};
ghost use Rattle.vthread_state.specs.Threads.{Threads as Table, thread_at, with_thread};

/// A call that changes one thread leaves all others, and their number.
pub fn one_thread_changes()
    ensures here { (table : Table) (t : ℕ) (f : OneThread → OneThread) (thread : OneThread) →
        thread_at table t ≡ Some thread → thread_at (with_thread table t f) t ≡ Some (f thread) }
    ensures others { (table : Table) (t u : ℕ) (f : OneThread → OneThread) → u ≢ t →
        thread_at (with_thread table t f) u ≡ thread_at table u }
    ensures count { (table : Table) (t : ℕ) (f : OneThread → OneThread) →
        length (with_thread table t f).threads ≡ length table.threads }
{}
