//! The schedule of Java threads on carriers, in definitions: what is mounted where, what the run deques and the lists of the
//! monitors hold after a history, and what holds of every history. It looks at threads from outside (`specs/Look.antt`), and knows
//! no instruction. `specs/` has the definitions; here are the laws, each as a call that does nothing.
#![tactic(auto)]

ghost use Rattle.schedule_model.specs.Run.{Machine};
ghost use Rattle.schedule_model.specs.Laws.{DequesHaveLooseThreads, FirstInLineRuns, HistoriesGoOn, InOnePlace, ListsHaveTheirThreads, ListsStay, MountedIsInNoDeque, MountsStarveNobody, NobodyIsPut, NoWakeUpIsLost, OneIsPut, OthersLeaveMounted, OthersLeaveOwed, PinnedThreadsAreMounted, PinnedThreadsStay, PlacesTell, PrefixesAreLegal, RunsWithoutCarriers, StalledIsNotStarved, StallsByPlaces, StepsByTheLast, StepsByThreads, StepsPutWhoIsEnabled, TicksByThreads, TicksPutWhoIsEnabled, UnmountsStarveNobody, UnmountsStayAllowed};

/// A history that goes on is played on from where it was, so what a legal history begins with is legal.
pub fn prefixes_are_legal<S>()
    ensures legal { (m : Machine S) → PrefixesAreLegal m }
    ensures on { (m : Machine S) → HistoriesGoOn m }
{}

/// Carriers change nothing that a Java program can tell: without its mounts and unmounts a legal history runs the machine to the same
/// state.
pub fn histories_run_without_carriers<S>()
    ensures { (m : Machine S) → RunsWithoutCarriers m }
{}

/// A thread is mounted once, or once in one deque, or neither.
pub fn threads_are_in_one_place<S>()
    ensures once { (m : Machine S) → InOnePlace m }
    ensures apart { (m : Machine S) → MountedIsInNoDeque m }
    ensures loose { (m : Machine S) → DequesHaveLooseThreads m }
{}

/// A thread that may step will be taken up: it is mounted or in a deque, or else in line for a monitor, and then another of that line
/// is.
pub fn no_wake_up_is_lost<S>()
    ensures woken { (m : Machine S) → NoWakeUpIsLost m }
    ensures lists { (m : Machine S) → ListsHaveTheirThreads m }
{}

/// Whom a step or a tick puts into a deque is seen by what it leaves: of those in no place and in no line, who may step.
pub fn puts_are_seen_afterwards<S>()
    ensures steps { (m : Machine S) → StepsPutWhoIsEnabled m }
    ensures ticks { (m : Machine S) → TicksPutWhoIsEnabled m }
{}

/// A pinned thread is mounted until it ends or is pinned no more.
pub fn pinned_threads_stay_mounted<S>()
    ensures mounted { (m : Machine S) → PinnedThreadsAreMounted m }
    ensures stay { (m : Machine S) → PinnedThreadsStay m }
{}

/// Whether any thread may step is seen by those that are mounted or in a deque.
pub fn stalls_are_seen_by_places<S>()
    ensures places { (m : Machine S) → PlacesTell m }
    ensures stalled { (m : Machine S) → StallsByPlaces m }
{}

/// What a carrier has mounted is its own affair: other carriers leave it, and whether its Unmount is owed. A carrier that may unmount its
/// thread still may after their entries, so the freezing of the frames needs no lock.
pub fn carriers_keep_their_threads<S>()
    ensures mounted { (m : Machine S) → OthersLeaveMounted m }
    ensures owed { (m : Machine S) → OthersLeaveOwed m }
    ensures allowed { (m : Machine S) → UnmountsStayAllowed m }
{}

/// Only a step or a tick of time can starve threads, and a program that is stalled isn't starved.
pub fn only_steps_and_time_starve<S>()
    ensures mounts { (m : Machine S) → MountsStarveNobody m }
    ensures unmounts { UnmountsStarveNobody }
    ensures stalled { StalledIsNotStarved }
{}

/// What a step or a tick does to each thread by itself says what it changes, and an entry of several steps changes what its last does.
pub fn changes_are_seen_by_thread()
    ensures steps { StepsByThreads }
    ensures ticks { TicksByThreads }
    ensures last { StepsByTheLast }
{}

/// Whom an entry puts, and which lists stay, in the words of code: the first in line for a monitor that lost its owner; nobody, or one
/// thread alone; and no list changes where no thread goes elsewhere.
pub fn puts_are_told_in_plain_words()
    ensures first { FirstInLineRuns }
    ensures nobody { NobodyIsPut }
    ensures one { OneIsPut }
    ensures lists { ListsStay }
{}
