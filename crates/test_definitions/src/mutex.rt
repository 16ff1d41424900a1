//! Wrong runs, and the table of places, of a mutex.

ghost use Rattle.test_definitions.specs.Tables.{AreRowsOf, AreRowsOfTwo};
ghost use Rattle.test_definitions.specs.MutexTable.{beginnings, actions, followings};
ghost use Rattle.lock_program.specs.Mutex.{start_of, action_of, next_of};
ghost use Rattle.test_definitions.specs.Never.{Never};
ghost use Rattle.test_definitions.specs.Mutex.{TriesInVain, PollsUnready, WaitsUnlisted, WaitsUnmarked, PendsTooEarly, RefusedAtFirst, RefusedHavingTaken, LetsGoUndecided, DropsUndecided, DecidesInVain, StarvedHavingTaken, StarvedTwice, StarvedAtFirst, StarvesUnlisted, HoldsRefused, ReadyWithout, TellsMore, TriesAndTells, StarvesAtFirst, PollsUntold, ReleasesLate, ReleasesSilently, PassesOverInVain, RefusedInVain, StarvesUnasked, StarvedAmongNone, KeepsItsTold, WakesTheNext, SleepsThoughFree, WakesInARing, StarvedUnwaited, RefusedSilently, NeverStarved, OvertakesStarved, TakesUntold, TakesBeforeStarved, CountsUnwaited, TwoTold, OvertakenTwice, OvertakenInTheMidst, TakesPastStarved, RefusedBesideMemory, NeverPossible, LeavesCounted, DropDawdles, GoesOnForEver, StandsBy, IsOvertakenOnce, EndsLate, WakesAndWaits, StarvedUnasked, RefusedUnasked, StepsBetween, GoesOnOnce};

/// Each clause says of one wrong run that it isn't legal.
fn wrong_runs()
    ensures tries_in_vain { Never (TriesInVain) }
    ensures polls_unready { Never (PollsUnready) }
    ensures waits_unlisted { Never (WaitsUnlisted) }
    ensures waits_unmarked { Never (WaitsUnmarked) }
    ensures pends_too_early { Never (PendsTooEarly) }
    ensures refused_at_first { Never (RefusedAtFirst) }
    ensures refused_having_taken { Never (RefusedHavingTaken) }
    ensures lets_go_undecided { Never (LetsGoUndecided) }
    ensures drops_undecided { Never (DropsUndecided) }
    ensures decides_in_vain { Never (DecidesInVain) }
    ensures starved_having_taken { Never (StarvedHavingTaken) }
    ensures starved_twice { Never (StarvedTwice) }
    ensures starved_at_first { Never (StarvedAtFirst) }
    ensures starves_unlisted { Never (StarvesUnlisted) }
    ensures holds_refused { Never (HoldsRefused) }
    ensures ready_without { Never (ReadyWithout) }
    ensures tells_more { Never (TellsMore) }
    ensures tries_and_tells { Never (TriesAndTells) }
    ensures starves_at_first { Never (StarvesAtFirst) }
    ensures polls_untold { Never (PollsUntold) }
    ensures releases_late { Never (ReleasesLate) }
    ensures releases_silently { Never (ReleasesSilently) }
    ensures passes_over_in_vain { Never (PassesOverInVain) }
    ensures refused_in_vain { Never (RefusedInVain) }
    ensures starves_unasked { Never (StarvesUnasked) }
    ensures starved_among_none { Never (StarvedAmongNone) }
    ensures keeps_its_told { Never (KeepsItsTold) }
    ensures wakes_the_next { Never (WakesTheNext) }
    ensures sleeps_though_free { Never (SleepsThoughFree) }
    ensures wakes_in_a_ring { Never (WakesInARing) }
    ensures starved_unwaited { Never (StarvedUnwaited) }
    ensures refused_silently { Never (RefusedSilently) }
    ensures never_starved { Never (NeverStarved) }
    ensures overtakes_starved { Never (OvertakesStarved) }
    ensures takes_untold { Never (TakesUntold) }
    ensures takes_before_starved { Never (TakesBeforeStarved) }
    ensures counts_unwaited { Never (CountsUnwaited) }
    ensures two_told { Never (TwoTold) }
    ensures overtaken_twice { Never (OvertakenTwice) }
    ensures overtaken_in_the_midst { Never (OvertakenInTheMidst) }
    ensures takes_past_starved { Never (TakesPastStarved) }
    ensures refused_beside_memory { Never (RefusedBesideMemory) }
    ensures never_possible { Never (NeverPossible) }
    ensures leaves_counted { Never (LeavesCounted) }
    ensures drop_dawdles { Never (DropDawdles) }
    ensures goes_on_for_ever { Never (GoesOnForEver) }
    ensures ends_late { Never (EndsLate) }
    ensures wakes_and_waits { Never (WakesAndWaits) }
    ensures starved_unasked { Never (StarvedUnasked) }
    ensures refused_unasked { Never (RefusedUnasked) }
{}

/// A worked chain of calls, which the bound on overtaking counts: two calls, one of which took the lock.
fn overtaking()
    ensures once { (s : StandsBy) → IsOvertakenOnce s }
{}

/// A worked chain of steps, of which the bound on the end of a decided call counts the party's own.
fn ending()
    ensures once { (s : StepsBetween) → GoesOnOnce s }
{}

/// The programs' places, each with its action and what follows what it finds, as docs/PROGRAMS.md lists them.
fn table()
    ensures beginnings { AreRowsOfTwo start_of beginnings }
    ensures actions { AreRowsOf action_of actions }
    ensures followings { AreRowsOfTwo next_of followings }
{}
