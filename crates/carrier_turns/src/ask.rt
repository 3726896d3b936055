//! What a turn answers.

ghost use Rattle.std.specs.Prelude.{◌≡◌};
ghost use Rattle.carrier_turns.specs.Turns as answers;

/// What a turn asks its carrier for, before the next one.
#[derive(Clone, Copy, Debug, PartialEq, Eq)]
pub enum Ask {
    /// Nothing.
    Nothing,
    /// A run of local instructions of the thread with this number.
    Local(u32),
    /// That the continuation of its thread is frozen.
    Freeze,
}

/// What a turn answers its carrier.
#[derive(Clone, Copy, Debug, PartialEq, Eq)]
pub enum Turn {
    /// The carrier does what it is asked for, and then has its next turn.
    Run(Ask),
    /// There is nothing to do until another carrier has had its turn, or for so many nanoseconds, after which a deadline is reached.
    Nap(Option<u64>),
    /// The run has ended.
    Over,
}

impl Turn {
    /// Whether it is that the run has ended.
    #[inline(always)]
    pub fn is_over(self) -> bool
        ensures { result ≡ answers.is_over self }
    {
        matches!(self, Turn::Over)
    }
}
