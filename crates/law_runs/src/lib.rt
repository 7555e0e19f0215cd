//! Laws over whole runs of the machine: each is a contract that nothing has to be done for.
#![tactic(auto)]

ghost use Rattle.law_runs.specs.Balance.{AlwaysBalances, AlwaysBalancesFresh, AlwaysBalancesLoaded, AlwaysRaises, AlwaysRaisesFresh, AlwaysRaisesLoaded};
ghost use Rattle.law_runs.specs.Changes.{EventsChangeOnly, RaisesOneLine};
ghost use Rattle.law_runs.specs.Due.{TimersExpireByNumber, WaitsEndByDeadline};
ghost use Rattle.law_runs.specs.First.{AlwaysFindsFirst};
ghost use Rattle.law_runs.specs.Fit.{CountsAlwaysFit, CountsAlwaysFitFresh, CountsAlwaysFitLoaded, HoldsAlwaysFit, HoldsAlwaysFitFresh, HoldsAlwaysFitLoaded};
ghost use Rattle.law_runs.specs.Kept.{SizesStay, StaysAsBooted, StaysAsLoaded};
ghost use Rattle.law_runs.specs.Least.{AlwaysTellsLeast};
ghost use Rattle.law_runs.specs.Nudged.{AlwaysTells, AlwaysTellsLoaded};
ghost use Rattle.law_runs.specs.Order.{LinesRise, LogsPlayInOrder, MutexesPassByNumber, StepsReceiveLeast, WaitersWakeByNumber};
ghost use Rattle.law_runs.specs.Own.{CallsLeave};
ghost use Rattle.law_runs.specs.Replays.{HartsLoaded, LoadsEachByte, LoadsNoMore, LoadsSoManyBytes, ReplaysJoin, StartsAsReplay, StaysReplay};
ghost use Rattle.law_runs.specs.Unanswered.{LoadsTouch, UnansweredFaults, WhoAnswersNone};
ghost use Rattle.law_runs.specs.Ahead.{ActorsAreReady, ActorsAreSame, NoneIsAhead, RaisesKeepAhead, StepsCatchUp, StepsGoAhead, StepsKeepAhead, TicksKeepAhead};
ghost use Rattle.law_runs.specs.Alike.{RowsKeepAlike};
ghost use Rattle.law_runs.specs.Timeless.{AlikeCallNoClock, BootsHaveNoTimes, RowsKeepAlikeTimeless, TimelessRows};
ghost use Rattle.law_runs.specs.Resting.{GoodBoardsRest};
ghost use Rattle.law_runs.specs.Sparing.{SparingStepsKeepAhead, StepsSpareText};

/// No interrupt is lost and none is played twice: after every boot, with whichever devices, and every list of events,
/// also where an image was loaded before, each line of each processor was raised as often as it merged on the wire, is
/// there still, or was received; what was received came to a stage; and what came to a stage merged in its log, is
/// there still, or was played. Each line but line 1 and those of the devices was raised by as many events as the journal
/// has of them. Those of the devices, which are on processor 0, were raised by these events, and by as many accepted ones
/// as a device raised its line in: by its tick, or since an instruction touched it.
pub fn balance_holds()
    ensures booted { AlwaysBalances }
    ensures loaded { AlwaysBalancesLoaded }
    ensures fresh { AlwaysBalancesFresh }
    ensures raised { AlwaysRaises }
    ensures raised_loaded { AlwaysRaisesLoaded }
    ensures raised_fresh { AlwaysRaisesFresh }
{}

/// Where the rules hold, a Step that receives a line receives the least of its processor's wire.
pub fn steps_receive_least()
    ensures { StepsReceiveLeast }
{}

/// The lines of a wire and of a log rise, also where a line is received, and a stage that isn't stalled plays those of its
/// log one after another; a line that is played in-band wakes its waiters by number; a task that ends passes its mutexes
/// on by number.
pub fn goes_in_order()
    ensures rise { LinesRise }
    ensures plays { LogsPlayInOrder }
    ensures wakes { WaitersWakeByNumber }
    ensures passes { MutexesPassByNumber }
{}

/// After every boot whose numbers are inside their limits, with an image loaded or none, and every list of events line 1
/// of each processor was raised by the events of the journal that name it, and by each step of another processor that
/// left this one with a better task than its current one, not stalled out-of-band and with no line 1 on its wire.
pub fn line_one_is_raised()
    ensures booted { AlwaysTells }
    ensures loaded { AlwaysTellsLoaded }
{}

/// After every list of events, also where an image was loaded before, the journal is within its capacity, the
/// clock is its ticks, and all counts are below 2^29, so that none has wrapped; and so is how often each mutex is
/// locked.
pub fn counts_fit()
    ensures booted { CountsAlwaysFit }
    ensures loaded { CountsAlwaysFitLoaded }
    ensures fresh { CountsAlwaysFitFresh }
    ensures holds { HoldsAlwaysFit }
    ensures holds_loaded { HoldsAlwaysFitLoaded }
    ensures holds_fresh { HoldsAlwaysFitFresh }
{}

/// An accepted event is in the journal afterwards. A command answers Done, and changes only the place that it
/// names. A tick changes the clock, the words of the devices by their ticks, and raises the lines that they raise by that
/// on processor 0, and line 0 on each processor. A step, where the rules hold, changes RAM only by a store, and the words
/// of one device by the row of the register that a load or a store touches; the device may raise its line on processor 0.
/// It makes at most one notice, for the task that was current and asks for it: where a call or a fault takes that task
/// in-band, where its lock would never end, or where it unlocks what it doesn't own. Of the tasks it changes the one that was current, gives
/// another class to the one for which that task asks it by call 34, wakes such as waited (by a line, its action, a deadline,
/// a timer, a mutex of that task or its call), makes such as waited for an event wait for the event's mutex, and adds one at
/// most; of the mutexes it changes such as were free or that task's, and adds one at most; of semaphores, flag groups,
/// events, timers and actions it changes such as that task names by their calls, and such as a line's action or the clock
/// changes; of the other processors only line 1 may be raised. Where a line is on the wire no task acts: of the one that was
/// current at most the slice is spent, and such mutexes are taken as were free, by tasks that waited for an event.
pub fn events_change_only()
    ensures { EventsChangeOnly }
{}

/// A raise puts its line on the wire and counts it, and changes nothing else of a pipe.
pub fn raises_one_line()
    ensures { RaisesOneLine }
{}

/// An ECALL of a task that is ready changes of that task only what the table of calls says, its stage and with it its stamp,
/// and a0.
pub fn calls_leave()
    ensures { CallsLeave }
{}

/// No event changes the boot numbers, nor how many processors, pipes, bytes of RAM or registers there are, nor which
/// devices, by their kinds;
/// tasks only get more, up to 64, with a hart for each.
pub fn sizes_stay()
    ensures { SizesStay }
{}

/// After every list of events there are as many processors, pipes and bytes of RAM as the boot numbers say, devices of
/// the kinds that were there at boot, 1 to 64 tasks, a hart for each, and x0 of each task is zero; also where an image was loaded before.
pub fn stays_as_booted()
    ensures booted { StaysAsBooted }
    ensures loaded { StaysAsLoaded }
{}

/// `first` finds the member of greatest rank, then of least stamp, and none where there is no member; where
/// no two members have one stamp it is the only such.
pub fn finds_first()
    ensures { AlwaysFindsFirst }
{}

/// An event is refused if and only if there is a reason for it, and of several the one of least number is reported:
/// that the journal is full goes before all others.
pub fn returns_least()
    ensures { AlwaysTellsLeast }
{}

/// Replaying events and then others is replaying all of them.
pub fn replays_join()
    ensures { ReplaysJoin }
{}

/// A machine that has had no event is the replay of its empty journal.
pub fn starts_as_replay()
    ensures { StartsAsReplay }
{}

/// After every list of events a machine is the replay of its journal: refused events leave no trace.
pub fn stays_replay()
    ensures { StaysReplay }
{}

/// What a load puts into RAM: as many bytes as before, each the one of its address.
pub fn loads_each_byte()
    ensures count { LoadsSoManyBytes }
    ensures each { LoadsEachByte }
{}

/// A load sets the pc of the first task, which is the only one, to the entry. It changes RAM and this pc, and nothing else.
pub fn loads_the_entry()
    ensures harts { HartsLoaded }
    ensures rest { LoadsNoMore }
{}

/// Where each event for which a task waits has a mutex, and a task that doesn't wait has no deadline: the waits on a
/// processor whose deadlines have come end one after another, by deadline, then by number. Its timers that are due expire
/// one after another, by number.
pub fn goes_when_due()
    ensures ends { WaitsEndByDeadline }
    ensures expires { TimersExpireByNumber }
{}

/// A load or a store that neither RAM nor a device answers is a fault, by which memory stands. A device is accessed by 8
/// bytes alone, at one of its registers, and answers if the register's row does. A load that is answered leaves memory as
/// the access did, whatever register it loads: also where that is x0.
pub fn accesses_are_answered()
    ensures faults { UnansweredFaults }
    ensures none { WhoAnswersNone }
    ensures loads { LoadsTouch }
{}

/// After every event boards that were alike are alike, and the event's answer is the same.
pub fn rows_keep_alike()
    ensures { RowsKeepAlike }
{}

/// Where no time is named and no call reads the clock, every event does the same whatever the count of ticks is.
pub fn rows_read_no_clock()
    ensures { TimelessRows }
{}

/// There boards that were alike except for their clocks are so after every event, and the event's answer is the same.
pub fn rows_keep_alike_timeless()
    ensures { RowsKeepAlikeTimeless }
{}

/// An event that calls no clock on one of two such boards calls none on the other.
pub fn alike_call_no_clock()
    ensures { AlikeCallNoClock }
{}

/// A machine that booted has no times, nor has one that was loaded.
pub fn boots_have_no_times()
    ensures { BootsHaveNoTimes }
{}

/// Where tasks are ahead by private rows, a Step of another task or of a line, a Tick and a Raise leave each as many rows ahead, and answer the
/// same, if the text stays from which private rows are taken. Steps are of the same tasks.
pub fn rows_keep_ahead()
    ensures steps { StepsKeepAhead }
    ensures ticks { TicksKeepAhead }
    ensures raises { RaisesKeepAhead }
    ensures actors { ActorsAreSame }
{}

/// A Step of a task that is ahead catches up by one row; a Step of a private row puts its task ahead by one row more. No task is
/// ahead of itself, and each whose instruction comes is ready.
pub fn private_steps_commute()
    ensures behind { StepsCatchUp }
    ensures ahead { StepsGoAhead }
    ensures none { NoneIsAhead }
    ensures ready { ActorsAreReady }
{}

/// A Step of an instruction that stores outside the text leaves the text; so it leaves each task as many rows ahead if its own isn't ahead.
pub fn steps_spare_text()
    ensures text { StepsSpareText }
    ensures ahead { SparingStepsKeepAhead }
{}

/// Where the rules hold, nothing follows a private row.
pub fn good_boards_rest()
    ensures { GoodBoardsRest }
{}
