//! A law of the wheel. The function does nothing: its contract is the law.

ghost use Rattle.std.specs.Prelude.{◌≡◌, ℕ, List};
ghost use Rattle.sleep_wheel.specs.declared.sleeper.Sleeper.{Sleeper};
ghost use Rattle.sleep_wheel.specs.Sleepers.{IsDueList};

/// The threads that are due among some sleepers are one list.
pub fn one_due_list()
    ensures { (now : ℕ) (sleepers : List Sleeper) (a b : List ℕ) →
        IsDueList now sleepers a → IsDueList now sleepers b → a ≡ b }
{}
