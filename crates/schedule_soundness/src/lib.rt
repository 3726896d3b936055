//! What holds of every history of the reference machine under the schedule of its threads: laws on the definitions of `ref_model` and
//! `schedule_model`, each as a call that does nothing.
#![tactic(auto)]

ghost use Rattle.schedule_soundness.specs.Moves.{OnlyStartsStart, StepsMoveOthers, TimeMovesAll};
ghost use Rattle.schedule_soundness.specs.FrameLaws.{StepsLeaveOthers, EntriesLeaveOthers, TimeLeavesFrames};
ghost use Rattle.schedule_soundness.specs.PromiseLaws.{LinkedProgramsBeginUnpinned, PromisesAreKept};
ghost use Rattle.schedule_soundness.specs.HistoryLaws.{HistoryPrefixes, HistoriesGoOn, HistoriesRun, PlacedWereStarted, ThreadsAreInOnePlace, MountedAreInNoDeque, DequesHaveLiveThreads, NoWakeUpIsLost, ListsHaveTheirThreads, PinnedAreMounted, PinnedStayMounted, OthersLeaveMounted, OthersLeaveOwed, UnmountsStayAllowed};
ghost use Rattle.schedule_soundness.specs.StallLaws.{PlacesTell, StallsByPlaces, MountsStarveNobody, StepsPutWhoIsEnabled, TicksPutWhoIsEnabled};
ghost use Rattle.schedule_soundness.specs.HandLaws.{EntriesLeaveHands, HandsOutlastEntries, OwedOutlastsEntries, UnmountsOutlastEntries, HandsGoOn, RowsAreEntries};
ghost use Rattle.schedule_soundness.specs.TypedLaws.{HistoriesAreTyped, FramesAreTyped, LinkedProgramsAreSuch};
ghost use Rattle.schedule_soundness.specs.AloneLaws.{StepsAreOfMain, MainRunsAlone, MainGoesOn};
ghost use Rattle.schedule_soundness.specs.ClockLaws.{NothingTicksAlone};
ghost use Rattle.schedule_soundness.specs.PutLaws.{QuietStepsPutNobody, EndsPutJoiners, StartsPutTheStarted, WakesPutTheWoken};
ghost use Rattle.schedule_soundness.specs.TimeLaws.{TicksLeaveThreads, TicksPutWhoIsDue};
ghost use Rattle.schedule_soundness.specs.EntryLaws.{YieldsAreNext, StepsAreEntries};

/// A step of a thread makes, starts, tells or wakes other threads, and does nothing else to them; nor does time (JLS 17.2). Only one that
/// asks for a start starts any.
pub fn others_are_moved()
    ensures steps { StepsMoveOthers }
    ensures starts { OnlyStartsStart }
    ensures time { TimeMovesAll }
{}

/// What others do, and time, leaves the frames of a thread that runs (JVMS 2.5.2).
pub fn frames_stay()
    ensures steps { StepsLeaveOthers }
    ensures entries { EntriesLeaveOthers }
    ensures time { TimeLeavesFrames }
{}

/// The reference machine keeps what it owes its schedule, for every program of which no thread begins pinned; each that links is such.
pub fn promises_are_kept()
    ensures kept { PromisesAreKept }
    ensures unpinned { LinkedProgramsBeginUnpinned }
{}

/// What a legal history begins with is legal, and an entry that may stand next makes it longer. Without its mounts and unmounts it runs
/// the program to the same state.
pub fn histories_run()
    ensures prefixes { HistoryPrefixes }
    ensures on { HistoriesGoOn }
    ensures same { HistoriesRun }
{}

/// A thread is in one place at most. Who is in a deque is live, who is mounted is in none, and who was never started is in no place.
pub fn threads_are_in_one_place()
    ensures once { ThreadsAreInOnePlace }
    ensures mounted { MountedAreInNoDeque }
    ensures deques { DequesHaveLiveThreads }
    ensures started { PlacedWereStarted }
{}

/// No wake-up is lost: a thread that may step will be taken up, and the lists of monitors have those who wait there.
pub fn no_wake_up_is_lost()
    ensures woken { NoWakeUpIsLost }
    ensures lists { ListsHaveTheirThreads }
{}

/// A pinned thread is mounted until it ends or is pinned no more (JEP 444).
pub fn pinned_threads_stay_mounted()
    ensures mounted { PinnedAreMounted }
    ensures stay { PinnedStayMounted }
{}

/// The entries of other carriers leave what a carrier has mounted, and what it may unmount. So it freezes frames outside the lock.
pub fn carriers_keep_their_threads()
    ensures mounted { OthersLeaveMounted }
    ensures owed { OthersLeaveOwed }
    ensures allowed { UnmountsStayAllowed }
{}

/// Whether any thread may step is seen by those that are mounted or in a deque, and a mount starves nobody.
pub fn stalls_are_seen_by_places()
    ensures places { PlacesTell }
    ensures stalled { StallsByPlaces }
    ensures mounts { MountsStarveNobody }
{}

/// Whom a step or a tick puts into a deque is seen by what it leaves: of those in no place and in no line, who may step.
pub fn puts_are_seen_afterwards()
    ensures steps { StepsPutWhoIsEnabled }
    ensures ticks { TicksPutWhoIsEnabled }
{}

/// Whom a step puts into a deque is seen by the threads that it changes: nobody where only its own thread changes, and goes on; with its
/// end those that join it; with a start the thread that is started; with a permit or an interrupt the thread that gets it, where that may
/// step then.
pub fn puts_are_seen_by_threads()
    ensures nobody { QuietStepsPutNobody }
    ensures joiners { EndsPutJoiners }
    ensures started { StartsPutTheStarted }
    ensures woken { WakesPutTheWoken }
{}

/// Where no thread waits on a monitor a tick leaves the threads as they are, and puts those whose deadline it reaches, by their deadlines
/// and then by their numbers.
pub fn puts_are_seen_by_time()
    ensures threads { TicksLeaveThreads }
    ensures due { TicksPutWhoIsDue }
{}

/// Local instructions that a carrier made ahead, and a step after them, are one entry, and the state before the step says whether the entry
/// ends with a yield.
pub fn steps_ahead_are_entries()
    ensures yields { YieldsAreNext }
    ensures entries { StepsAreEntries }
{}

/// Local instructions that a carrier makes ahead, outside the lock, are those of its thread's next entry: what others enter in between
/// doesn't touch them, nor what the carrier owes and may unmount.
pub fn hands_stay()
    ensures others { EntriesLeaveHands }
    ensures all { HandsOutlastEntries }
    ensures owed { OwedOutlastsEntries }
    ensures allowed { UnmountsOutlastEntries }
    ensures rows { HandsGoOn }
    ensures entries { RowsAreEntries }
{}

/// After each legal history of a program that links the frames of every thread keep to the typing (JVMS 4.10.1.6).
pub fn histories_are_typed()
    ensures states { HistoriesAreTyped }
    ensures frames { FramesAreTyped }
    ensures linked { LinkedProgramsAreSuch }
{}

/// While no other thread was started each step is main's. Where time hasn't gone on, and `alone` is defined for as many steps, the state is
/// the one that it gives, and no other thread was started. Where `alone` ends the program the history has ended so, or main goes on, in a
/// history of at most three entries a step; and time doesn't go on, where it does so only with a reason.
pub fn main_runs_alone()
    ensures steps { StepsAreOfMain }
    ensures alone { MainRunsAlone }
    ensures on { MainGoesOn }
    ensures ticks { NothingTicksAlone }
{}
