//! Wrong runs, and the table of places, of a barrier.

ghost use Rattle.test_definitions.specs.Tables.{AreRowsOf, AreRowsOfTwo};
ghost use Rattle.test_definitions.specs.BarrierTable.{beginnings, actions, followings};
ghost use Rattle.sync_program.specs.Barrier.{action_of, next_of};
ghost use Rattle.world_barrier.specs.program.Program.{start_of};
ghost use Rattle.test_definitions.specs.Never.{Never};
ghost use Rattle.test_definitions.specs.Barrier.{TwoLeaders, LeadsInTheMidst, HasNoLeader, CountedTwice, TakenBack, FollowsTooSoon, CountedUnlisted, CountedWithoutLock, WaitsUncounted, KeepsTheLock, RefusedAndCounted, RefusedTooSoon, LeftAsleep, LeadsUntold, ReadyUntried, RefusedInVain, WaitsForNothing, PassesOverInVain, KeepsItsTold, LooksInVain, WakesAll, SleepsThoughFree, SleepsBesideAPoll, StarvedHavingTaken, StarvedTwice, StarvedAtFirst, StarvedForNothing, WakesInARing, ReleasesSilently, RefusedSilently, EndsByReleasing, ReleasesUntold, RefusedUnneeded, StarvedUnwaited, CountsUnwaited, OvertakesStarved, NeverStarved, PassesTheStarved, OvertakenInTheMidst, LeavesCounted, DropDawdles, OtherDropDawdles, DropTells, TwoToldOfLock, EndsLate, StarvedUnasked, RefusedUnasked};

/// Each clause says of one wrong run that it isn't legal.
fn wrong_runs()
    ensures two_leaders { Never (TwoLeaders) }
    ensures leads_in_the_midst { Never (LeadsInTheMidst) }
    ensures has_no_leader { Never (HasNoLeader) }
    ensures counted_twice { Never (CountedTwice) }
    ensures taken_back { Never (TakenBack) }
    ensures follows_too_soon { Never (FollowsTooSoon) }
    ensures counted_unlisted { Never (CountedUnlisted) }
    ensures counted_without_lock { Never (CountedWithoutLock) }
    ensures waits_uncounted { Never (WaitsUncounted) }
    ensures keeps_the_lock { Never (KeepsTheLock) }
    ensures refused_and_counted { Never (RefusedAndCounted) }
    ensures refused_too_soon { Never (RefusedTooSoon) }
    ensures left_asleep { Never (LeftAsleep) }
    ensures leads_untold { Never (LeadsUntold) }
    ensures ready_untried { Never (ReadyUntried) }
    ensures refused_in_vain { Never (RefusedInVain) }
    ensures waits_for_nothing { Never (WaitsForNothing) }
    ensures passes_over_in_vain { Never (PassesOverInVain) }
    ensures keeps_its_told { Never (KeepsItsTold) }
    ensures looks_in_vain { Never (LooksInVain) }
    ensures wakes_all { Never (WakesAll) }
    ensures sleeps_though_free { Never (SleepsThoughFree) }
    ensures sleeps_beside_a_poll { Never (SleepsBesideAPoll) }
    ensures starved_having_taken { Never (StarvedHavingTaken) }
    ensures starved_twice { Never (StarvedTwice) }
    ensures starved_at_first { Never (StarvedAtFirst) }
    ensures starved_for_nothing { Never (StarvedForNothing) }
    ensures wakes_in_a_ring { Never (WakesInARing) }
    ensures releases_silently { Never (ReleasesSilently) }
    ensures refused_silently { Never (RefusedSilently) }
    ensures ends_by_releasing { Never (EndsByReleasing) }
    ensures releases_untold { Never (ReleasesUntold) }
    ensures refused_unneeded { Never (RefusedUnneeded) }
    ensures starved_unwaited { Never (StarvedUnwaited) }
    ensures counts_unwaited { Never (CountsUnwaited) }
    ensures overtakes_starved { Never (OvertakesStarved) }
    ensures never_starved { Never (NeverStarved) }
    ensures passes_the_starved { Never (PassesTheStarved) }
    ensures overtaken_in_the_midst { Never (OvertakenInTheMidst) }
    ensures leaves_counted { Never (LeavesCounted) }
    ensures drop_dawdles { Never (DropDawdles) }
    ensures other_drop_dawdles { Never (OtherDropDawdles) }
    ensures drop_tells { Never (DropTells) }
    ensures two_told_of_lock { Never (TwoToldOfLock) }
    ensures ends_late { Never (EndsLate) }
    ensures starved_unasked { Never (StarvedUnasked) }
    ensures refused_unasked { Never (RefusedUnasked) }
{}

/// The programs' places, each with its action and what follows what it finds, as docs/PROGRAMS.md lists them.
fn table()
    ensures beginnings { AreRowsOfTwo start_of beginnings }
    ensures actions { AreRowsOf action_of actions }
    ensures followings { AreRowsOfTwo next_of followings }
{}
