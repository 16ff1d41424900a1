//! Wrong runs, and the table of places, of a read-write lock.

ghost use Rattle.test_definitions.specs.Tables.{AreRowsOf, AreRowsOfTwo};
ghost use Rattle.test_definitions.specs.ReadWriteTable.{beginnings, actions, followings};
ghost use Rattle.sync_program.specs.ReadWrite.{action_of, next_of};
ghost use Rattle.world_rwlock.specs.program.Program.{start_of};
ghost use Rattle.test_definitions.specs.Never.{Never};
ghost use Rattle.test_definitions.specs.ReadWrite.{TriesInVain, ReadsUnready, WaitsUnlisted, PendsTooEarly, RefusedAtFirst, RefusedHavingMoved, ReadsWithTheBit, LetsGoUndecided, UnmarksUndecided, StopsReadingUndecided, DowngradesUndecided, DropsUndecided, DowngradesThroughNothing, OtherIsUpgrade, IdleHasTurn, TriesOn, WriteMeetsReaders, ReadMeetsStarved, LacksMemoryWithTurn, ReadMeetsReadersBesideWriter, MeetsReadersWithoutTurn, MeetsStarvedWithTurn, PassesTurnInVain, PassesReadingInVain, PassesWritingInVain, UpgradeWaitsForNobody, UpgradableUnready, WriteUnready, StarvesUnasked, KeepsItsTold, TriesTurnInVain, StarvedHavingTaken, StarvedTwice, StarvedAtFirst, DecidesInVain};
ghost use Rattle.test_definitions.specs.ReadWriteWakes.{TellsMany, TellsMore, WakesAWriter, WakesAReader, WakesForTheTurn, NotTheLast, WakesTheNext, SleepsThoughFree, SleepsThoughReadable, SleepsThoughWritable, SleepsBesideADrop, ReadsBesideADrop, WritesBesideADrop, StarvedForNothing, WakesInARing, PollsUntold, PollsUntoldToRead, TriesAndTells, RefusedSilently, RefusedToReadSilently, DropsLastSilently, EndsWithoutTurn, EndsWithoutBit, ReleasesUntold, LastReaderUntold, RefusedToReadUnneeded, RefusedToWriteUnneeded, RefusedTurnUnneeded, TriesTurnAndTells, EntersTurnAndTells, StopsLastSilently, ReadStarves, ReaderLost, StarvedUnwaited, CountsUnwaited, OvertakesStarved, TakesTurnUntold, NeverStarved, LeavesCounted, DropDawdles, ReadersDropDawdles, UnlistedDropDawdles, UnlistedDropTells, WritePassesOver, TwoTold, OvertakenTwice, OvertakenInTheMidst, TakesTurnBeforeStarved, EndsLate, StarvedUnasked, RefusedUnasked, ReadersLeftOut, NoNextReader, OwesNoTurn, OwesNoBit, WaitsAtTheLimit, JoinsAtTheLimit};

/// Each clause says of one wrong run that it isn't legal.
fn wrong_runs()
    ensures tries_in_vain { Never (TriesInVain) }
    ensures reads_unready { Never (ReadsUnready) }
    ensures waits_unlisted { Never (WaitsUnlisted) }
    ensures pends_too_early { Never (PendsTooEarly) }
    ensures refused_at_first { Never (RefusedAtFirst) }
    ensures refused_having_moved { Never (RefusedHavingMoved) }
    ensures reads_with_the_bit { Never (ReadsWithTheBit) }
    ensures lets_go_undecided { Never (LetsGoUndecided) }
    ensures unmarks_undecided { Never (UnmarksUndecided) }
    ensures stops_reading_undecided { Never (StopsReadingUndecided) }
    ensures downgrades_undecided { Never (DowngradesUndecided) }
    ensures drops_undecided { Never (DropsUndecided) }
    ensures downgrades_through_nothing { Never (DowngradesThroughNothing) }
    ensures other_is_upgrade { Never (OtherIsUpgrade) }
    ensures idle_has_turn { Never (IdleHasTurn) }
    ensures tries_on { Never (TriesOn) }
    ensures write_meets_readers { Never (WriteMeetsReaders) }
    ensures read_meets_starved { Never (ReadMeetsStarved) }
    ensures lacks_memory_with_turn { Never (LacksMemoryWithTurn) }
    ensures read_meets_readers_beside_writer { Never (ReadMeetsReadersBesideWriter) }
    ensures meets_readers_without_turn { Never (MeetsReadersWithoutTurn) }
    ensures meets_starved_with_turn { Never (MeetsStarvedWithTurn) }
    ensures passes_turn_in_vain { Never (PassesTurnInVain) }
    ensures passes_reading_in_vain { Never (PassesReadingInVain) }
    ensures passes_writing_in_vain { Never (PassesWritingInVain) }
    ensures upgrade_waits_for_nobody { Never (UpgradeWaitsForNobody) }
    ensures upgradable_unready { Never (UpgradableUnready) }
    ensures write_unready { Never (WriteUnready) }
    ensures starves_unasked { Never (StarvesUnasked) }
    ensures keeps_its_told { Never (KeepsItsTold) }
    ensures tries_turn_in_vain { Never (TriesTurnInVain) }
    ensures starved_having_taken { Never (StarvedHavingTaken) }
    ensures starved_twice { Never (StarvedTwice) }
    ensures starved_at_first { Never (StarvedAtFirst) }
    ensures decides_in_vain { Never (DecidesInVain) }
    ensures tells_many { Never (TellsMany) }
    ensures tells_more { Never (TellsMore) }
    ensures wakes_a_writer { Never (WakesAWriter) }
    ensures wakes_a_reader { Never (WakesAReader) }
    ensures wakes_for_the_turn { Never (WakesForTheTurn) }
    ensures not_the_last { Never (NotTheLast) }
    ensures wakes_the_next { Never (WakesTheNext) }
    ensures sleeps_though_free { Never (SleepsThoughFree) }
    ensures sleeps_though_readable { Never (SleepsThoughReadable) }
    ensures sleeps_though_writable { Never (SleepsThoughWritable) }
    ensures sleeps_beside_a_drop { Never (SleepsBesideADrop) }
    ensures reads_beside_a_drop { Never (ReadsBesideADrop) }
    ensures writes_beside_a_drop { Never (WritesBesideADrop) }
    ensures starved_for_nothing { Never (StarvedForNothing) }
    ensures wakes_in_a_ring { Never (WakesInARing) }
    ensures polls_untold { Never (PollsUntold) }
    ensures polls_untold_to_read { Never (PollsUntoldToRead) }
    ensures tries_and_tells { Never (TriesAndTells) }
    ensures refused_silently { Never (RefusedSilently) }
    ensures refused_to_read_silently { Never (RefusedToReadSilently) }
    ensures drops_last_silently { Never (DropsLastSilently) }
    ensures ends_without_turn { Never (EndsWithoutTurn) }
    ensures ends_without_bit { Never (EndsWithoutBit) }
    ensures releases_untold { Never (ReleasesUntold) }
    ensures last_reader_untold { Never (LastReaderUntold) }
    ensures refused_to_read_unneeded { Never (RefusedToReadUnneeded) }
    ensures refused_to_write_unneeded { Never (RefusedToWriteUnneeded) }
    ensures refused_turn_unneeded { Never (RefusedTurnUnneeded) }
    ensures tries_turn_and_tells { Never (TriesTurnAndTells) }
    ensures enters_turn_and_tells { Never (EntersTurnAndTells) }
    ensures stops_last_silently { Never (StopsLastSilently) }
    ensures read_starves { Never (ReadStarves) }
    ensures reader_lost { Never (ReaderLost) }
    ensures starved_unwaited { Never (StarvedUnwaited) }
    ensures counts_unwaited { Never (CountsUnwaited) }
    ensures overtakes_starved { Never (OvertakesStarved) }
    ensures takes_turn_untold { Never (TakesTurnUntold) }
    ensures never_starved { Never (NeverStarved) }
    ensures leaves_counted { Never (LeavesCounted) }
    ensures drop_dawdles { Never (DropDawdles) }
    ensures readers_drop_dawdles { Never (ReadersDropDawdles) }
    ensures unlisted_drop_dawdles { Never (UnlistedDropDawdles) }
    ensures unlisted_drop_tells { Never (UnlistedDropTells) }
    ensures write_passes_over { Never (WritePassesOver) }
    ensures two_told { Never (TwoTold) }
    ensures overtaken_twice { Never (OvertakenTwice) }
    ensures overtaken_in_the_midst { Never (OvertakenInTheMidst) }
    ensures takes_turn_before_starved { Never (TakesTurnBeforeStarved) }
    ensures ends_late { Never (EndsLate) }
    ensures starved_unasked { Never (StarvedUnasked) }
    ensures refused_unasked { Never (RefusedUnasked) }
    ensures readers_left_out { Never (ReadersLeftOut) }
    ensures no_next_reader { Never (NoNextReader) }
    ensures owes_no_turn { Never (OwesNoTurn) }
    ensures owes_no_bit { Never (OwesNoBit) }
    ensures waits_at_the_limit { Never (WaitsAtTheLimit) }
    ensures joins_at_the_limit { Never (JoinsAtTheLimit) }
{}

/// The programs' places, each with its action and what follows what it finds, as docs/PROGRAMS.md lists them.
fn table()
    ensures beginnings { AreRowsOfTwo start_of beginnings }
    ensures actions { AreRowsOf action_of actions }
    ensures followings { AreRowsOfTwo next_of followings }
{}
