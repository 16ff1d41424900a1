//! Wrong runs, and the table of places, of a once-cell.

ghost use Rattle.test_definitions.specs.Tables.{AreRowsOf, AreRowsOfTwo};
ghost use Rattle.test_definitions.specs.CellTable.{beginnings, actions, followings};
ghost use Rattle.sync_program.specs.OnceCell.{action_of, next_of};
ghost use Rattle.world_once_cell.specs.program.Program.{start_of};
ghost use Rattle.test_definitions.specs.Never.{Never};
ghost use Rattle.test_definitions.specs.Cell.{EntersTwice, EndsByNothing, FillsAnother, MakesAnother, ReadyTooSoon, WaitsWithoutMaking, WaitsInPassive, WaitsInActive, TriesInVain, TriesWhileMade, LosesItsOwn, StaysMade, TellsNobody, PassesOverInVain, KeepsItsTold, LeftUntold, GoesOnUndecided, DropsListed, MakesAndWaits, RefusesMaker, MarksUndecided, GrantsNothing, HasAnotherBack, FailsUntold, DropsUntold, RefusedUntold, WaitsThoughTold, GoesOnUntold, WaitsForFull, RefusedToMake, LeftToNobody, TellsAnyone, TellsPassive, LosesWhatWasMade, JoinsUnlooked, KeepsItsMark, DropsOn, LingersWithValue, MakesAfterFailure, MakerJoins, MadeByNobody, FillsUntold, TwoTellers, EndsLate};

/// Each clause says of one wrong run that it isn't legal.
fn wrong_runs()
    ensures enters_twice { Never (EntersTwice) }
    ensures ends_by_nothing { Never (EndsByNothing) }
    ensures fills_another { Never (FillsAnother) }
    ensures makes_another { Never (MakesAnother) }
    ensures ready_too_soon { Never (ReadyTooSoon) }
    ensures waits_without_making { Never (WaitsWithoutMaking) }
    ensures waits_in_passive { Never (WaitsInPassive) }
    ensures waits_in_active { Never (WaitsInActive) }
    ensures tries_in_vain { Never (TriesInVain) }
    ensures tries_while_made { Never (TriesWhileMade) }
    ensures loses_its_own { Never (LosesItsOwn) }
    ensures stays_made { Never (StaysMade) }
    ensures tells_nobody { Never (TellsNobody) }
    ensures passes_over_in_vain { Never (PassesOverInVain) }
    ensures keeps_its_told { Never (KeepsItsTold) }
    ensures left_untold { Never (LeftUntold) }
    ensures goes_on_undecided { Never (GoesOnUndecided) }
    ensures drops_listed { Never (DropsListed) }
    ensures makes_and_waits { Never (MakesAndWaits) }
    ensures refuses_maker { Never (RefusesMaker) }
    ensures marks_undecided { Never (MarksUndecided) }
    ensures grants_nothing { Never (GrantsNothing) }
    ensures has_another_back { Never (HasAnotherBack) }
    ensures fails_untold { Never (FailsUntold) }
    ensures drops_untold { Never (DropsUntold) }
    ensures refused_untold { Never (RefusedUntold) }
    ensures waits_though_told { Never (WaitsThoughTold) }
    ensures goes_on_untold { Never (GoesOnUntold) }
    ensures waits_for_full { Never (WaitsForFull) }
    ensures refused_to_make { Never (RefusedToMake) }
    ensures left_to_nobody { Never (LeftToNobody) }
    ensures tells_anyone { Never (TellsAnyone) }
    ensures tells_passive { Never (TellsPassive) }
    ensures loses_what_was_made { Never (LosesWhatWasMade) }
    ensures joins_unlooked { Never (JoinsUnlooked) }
    ensures keeps_its_mark { Never (KeepsItsMark) }
    ensures drops_on { Never (DropsOn) }
    ensures lingers_with_value { Never (LingersWithValue) }
    ensures makes_after_failure { Never (MakesAfterFailure) }
    ensures maker_joins { Never (MakerJoins) }
    ensures made_by_nobody { Never (MadeByNobody) }
    ensures fills_untold { Never (FillsUntold) }
    ensures two_tellers { Never (TwoTellers) }
    ensures ends_late { Never (EndsLate) }
{}

/// The programs' places, each with its action and what follows what it finds, as docs/PROGRAMS.md lists them.
fn table()
    ensures beginnings { AreRowsOfTwo start_of beginnings }
    ensures actions { AreRowsOf action_of actions }
    ensures followings { AreRowsOfTwo next_of followings }
{}
