//! Wrong runs, and the table of places, of a semaphore.

ghost use Rattle.test_definitions.specs.Tables.{AreRowsOf, AreRowsOfTwo};
ghost use Rattle.test_definitions.specs.SemaphoreTable.{beginnings, actions, followings};
ghost use Rattle.sync_program.specs.Permits.{action_of, next_of};
ghost use Rattle.world_semaphore.specs.machine.Program.{start_of};
ghost use Rattle.test_definitions.specs.Never.{Never};
ghost use Rattle.test_definitions.specs.Semaphore.{TriesInVain, TakesUndecided, GivesBackWithin, GivesBeforeItRaises, TellsOfOthers, ForgetsInVain, RefusedThoughFree, RefusedAtLast, WaitsUnlisted, GoesOnUndecided, DecidesInVain, HasRefused, AddsAndTakes, TellsTwo, TriesAndTells, ReturnsLate, ReturnsSilently, AddsSilently, AddsAfterTelling, PassesOverInVain, KeepsItsTold, TakesWhatWasTold, DropsWhatWasTold, HandsOverInVain, WakesTheNext, SleepsThoughFree, SleepsBehindALargerOne, RefusedSilently, WaitsSilently, TakesOthers, TakesTooMany, ReadyWithoutAGuard, GoesOnWithTheOlder, EndsLate, DrainsInVain, DrainsHalf};

/// Each clause says of one wrong run that it isn't legal.
fn wrong_runs()
    ensures tries_in_vain { Never (TriesInVain) }
    ensures takes_undecided { Never (TakesUndecided) }
    ensures gives_back_within { Never (GivesBackWithin) }
    ensures gives_before_it_raises { Never (GivesBeforeItRaises) }
    ensures tells_of_others { Never (TellsOfOthers) }
    ensures forgets_in_vain { Never (ForgetsInVain) }
    ensures refused_though_free { Never (RefusedThoughFree) }
    ensures refused_at_last { Never (RefusedAtLast) }
    ensures waits_unlisted { Never (WaitsUnlisted) }
    ensures goes_on_undecided { Never (GoesOnUndecided) }
    ensures decides_in_vain { Never (DecidesInVain) }
    ensures has_refused { Never (HasRefused) }
    ensures adds_and_takes { Never (AddsAndTakes) }
    ensures tells_two { Never (TellsTwo) }
    ensures tries_and_tells { Never (TriesAndTells) }
    ensures returns_late { Never (ReturnsLate) }
    ensures returns_silently { Never (ReturnsSilently) }
    ensures adds_silently { Never (AddsSilently) }
    ensures adds_after_telling { Never (AddsAfterTelling) }
    ensures passes_over_in_vain { Never (PassesOverInVain) }
    ensures keeps_its_told { Never (KeepsItsTold) }
    ensures takes_what_was_told { Never (TakesWhatWasTold) }
    ensures drops_what_was_told { Never (DropsWhatWasTold) }
    ensures hands_over_in_vain { Never (HandsOverInVain) }
    ensures wakes_the_next { Never (WakesTheNext) }
    ensures sleeps_though_free { Never (SleepsThoughFree) }
    ensures sleeps_behind_a_larger_one { Never (SleepsBehindALargerOne) }
    ensures refused_silently { Never (RefusedSilently) }
    ensures waits_silently { Never (WaitsSilently) }
    ensures takes_others { Never (TakesOthers) }
    ensures takes_too_many { Never (TakesTooMany) }
    ensures ready_without_a_guard { Never (ReadyWithoutAGuard) }
    ensures goes_on_with_the_older { Never (GoesOnWithTheOlder) }
    ensures ends_late { Never (EndsLate) }
    ensures drains_in_vain { Never (DrainsInVain) }
    ensures drains_half { Never (DrainsHalf) }
{}

/// The programs' places, each with its action and what follows what it finds, as docs/PROGRAMS.md lists them.
fn table()
    ensures beginnings { AreRowsOfTwo start_of beginnings }
    ensures actions { AreRowsOf action_of actions }
    ensures followings { AreRowsOfTwo next_of followings }
{}
