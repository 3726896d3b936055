//! What monitors have to do with the schedule of threads: whom a step or a tick puts into a deque, and what it makes of the lists of
//! monitors. Laws on the definitions of `ref_model` and `schedule_model`, each as a call that does nothing.
#![tactic(auto)]

ghost use Rattle.monitor_soundness.specs.ListLaws.{StepsKeepLists, TicksKeepLists, ListedAreInLine, StepsMoveOne, StepsMoveOneBeside, OneMovesInLists, WhoLinesUpIsLast, WhoEntersLeavesTheLine, WhoWaitsIsLast, WhoseWaitEndsIsLast, NotifyMovesTheFirst, NotifyAllMovesAll, OtherStepsKeepLists};
ghost use Rattle.monitor_soundness.specs.MonitorPuts.{EntersPutNobody, ExitsPutTheFirst, EndsPutJoinersAndTheFirst, EndsPutJoinersAlone, NotifiesPutNobody, InterruptsPutTheWaiter, WakesInLinePutNobody};
ghost use Rattle.monitor_soundness.specs.TickLaws.{WaitsAreOpen, TicksWakeWaiters, TicksLeaveOthers, TicksChangeTime, TicksMoveTheDue, TicksPutTheDue};

/// The lists of monitors have the threads that are there, each once, after a step or a tick, too, whether or not the program ends by it.
pub fn lists_keep_their_threads()
    ensures steps { StepsKeepLists }
    ensures ticks { TicksKeepLists }
    ensures in_line { ListedAreInLine }
{}

/// What a step makes of the lists of monitors: where one thread alone goes elsewhere, it alone leaves lists or comes last to them.
pub fn lists_are_seen_by_threads()
    ensures stays { StepsMoveOne }
    ensures beside { StepsMoveOneBeside }
    ensures one { OneMovesInLists }
{}

/// What that is for each way in which a thread may go: as the monitors of a machine have it (JLS 17.1, 17.2).
pub fn lists_change_as_monitors_do()
    ensures line_up { WhoLinesUpIsLast }
    ensures enter { WhoEntersLeavesTheLine }
    ensures wait { WhoWaitsIsLast }
    ensures wait_ends { WhoseWaitEndsIsLast }
    ensures notify { NotifyMovesTheFirst }
    ensures notify_all { NotifyAllMovesAll }
    ensures others { OtherStepsKeepLists }
{}

/// Whom a step that does something to one monitor puts: nobody where the monitor is owned afterwards; the first in line where it loses its
/// owner; with the end of a thread those that join it, too (JLS 17.1).
pub fn puts_are_seen_by_monitors()
    ensures enters { EntersPutNobody }
    ensures exits { ExitsPutTheFirst }
    ensures ends { EndsPutJoinersAndTheFirst }
    ensures keeps { EndsPutJoinersAlone }
{}

/// Whom a step puts that ends the waits of others: nobody by a notification; by an interrupt the thread that waited, where nobody owns its
/// monitor; and who is in line is put by none of these (JLS 17.2).
pub fn puts_are_seen_by_waits()
    ensures notified { NotifiesPutNobody }
    ensures interrupted { InterruptsPutTheWaiter }
    ensures in_line { WakesInLinePutNobody }
{}

/// What a tick of time does: it ends the waits on monitors whose deadlines it reaches, of which none was reached before, and changes
/// nothing else but the time (JLS 17.2).
pub fn ticks_are_seen_by_threads()
    ensures open { WaitsAreOpen }
    ensures woken { TicksWakeWaiters }
    ensures others { TicksLeaveOthers }
    ensures time { TicksChangeTime }
{}

/// What a tick makes of the lists of monitors, and whom it puts: those that are due, by their deadlines and then by their numbers.
pub fn ticks_are_seen_by_deadlines()
    ensures lists { TicksMoveTheDue }
    ensures put { TicksPutTheDue }
{}
