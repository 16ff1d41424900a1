//! Wrong runs, and the table of places, of a pool.

ghost use Rattle.test_definitions.specs.Tables.{AreRowsOf, AreRowsOfTwo};
ghost use Rattle.test_definitions.specs.PoolTable.{beginnings, actions, followings};
ghost use Rattle.world_pool.specs.program.Program.{start_of, action_of, next_of};
ghost use Rattle.test_definitions.specs.Never.{Never};
ghost use Rattle.test_definitions.specs.Pool.{LeasedTwice, LeasedAndListed, GivesPermitFirst, DropReturnsPermit, PopsWithoutLock, PopsWithoutPermit, LostComesBack, SleepsBesideAnItem, MissesAPermit, InVainBesideAPermit, GiveIsReady, HoldsUnsaid, SaysAnotherItem, Unbalanced, ItemsVanish, PassesOverInVain, SleepsForTheLock};

/// Each clause says of one wrong run that it isn't legal.
fn wrong_runs()
    ensures leased_twice { Never (LeasedTwice) }
    ensures leased_and_listed { Never (LeasedAndListed) }
    ensures gives_permit_first { Never (GivesPermitFirst) }
    ensures drop_returns_permit { Never (DropReturnsPermit) }
    ensures pops_without_lock { Never (PopsWithoutLock) }
    ensures pops_without_permit { Never (PopsWithoutPermit) }
    ensures lost_comes_back { Never (LostComesBack) }
    ensures sleeps_beside_an_item { Never (SleepsBesideAnItem) }
    ensures misses_a_permit { Never (MissesAPermit) }
    ensures in_vain_beside_a_permit { Never (InVainBesideAPermit) }
    ensures give_is_ready { Never (GiveIsReady) }
    ensures holds_unsaid { Never (HoldsUnsaid) }
    ensures says_another_item { Never (SaysAnotherItem) }
    ensures unbalanced { Never (Unbalanced) }
    ensures items_vanish { Never (ItemsVanish) }
    ensures passes_over_in_vain { Never (PassesOverInVain) }
    ensures sleeps_for_the_lock { Never (SleepsForTheLock) }
{}

/// The programs' places, each with its action and what follows what it finds, as docs/PROGRAMS.md lists them.
fn table()
    ensures beginnings { AreRowsOfTwo start_of beginnings }
    ensures actions { AreRowsOf action_of actions }
    ensures followings { AreRowsOfTwo next_of followings }
{}
