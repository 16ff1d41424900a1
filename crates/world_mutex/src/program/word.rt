//! The word of a mutex: whether it is held, and how many parties are counted as starved.

ghost use Rattle.std.specs.Prelude.{◌≡◌, ℕ, ◌<◌, ◌≤◌, ◌^◌, Bool, true, false};
ghost use Rattle.lock_program.specs.declared.mutex.Action.TheVariants as act;
ghost use Rattle.world_mutex.specs.program.Words.{OnWord, new_word};

use lock_program::mutex::Found;

/// The word of a mutex: whether it is held, how many parties are starved, and how many may be.
#[derive(Clone, Copy)]
pub struct Word {
    pub held: bool,
    pub starved: u32,
    pub limit: u32,
}

impl Word {
    /// Nobody holds it, and nobody is starved.
    pub fn new(limit: u32) -> Word
        ensures { result ≡ new_word limit }
    {
        Word {
            held: false,
            starved: 0,
            limit,
        }
    }

    /// Takes it if nobody holds it and nobody is starved. `starving` goes into what is found of a held
    /// word, for the program that asks for it.
    pub fn take(&mut self, starving: bool) -> Found
        ensures word { OnWord act.Take result self.old self.new }
        ensures clock { (long : Bool) → result ≡ Found.Held long → long ≡ starving }
    {
        if self.starved > 0 {
            Found::SomeStarved
        } else if self.held {
            Found::Held { starving }
        } else {
            self.held = true;
            Found::Free
        }
    }

    /// Takes it if nobody holds it and one party is starved.
    pub fn take_alone(&mut self) -> Found
        ensures { OnWord act.TakeAlone result self.old self.new }
    {
        if self.held {
            Found::Held { starving: false }
        } else if self.starved == 1 {
            self.held = true;
            Found::Free
        } else {
            Found::SomeStarved
        }
    }

    /// Takes it if nobody holds it, whoever is starved.
    pub fn set(&mut self) -> Found
        ensures { OnWord act.Set result self.old self.new }
    {
        if self.held {
            Found::Held { starving: false }
        } else {
            self.held = true;
            Found::Free
        }
    }

    /// One more party is starved, below the limit.
    pub fn count(&mut self) -> Found
        requires { self.old.starved ≤ self.old.limit }
        ensures { OnWord act.Count result self.old self.new }
    {
        if self.starved == self.limit {
            Found::AtLimit
        } else {
            self.starved += 1;
            Found::Done
        }
    }

    /// One party fewer is starved.
    pub fn uncount(&mut self) -> Found
        requires { 0 < self.old.starved }
        ensures { OnWord act.Uncount result self.old self.new }
    {
        self.starved -= 1;
        Found::Done
    }

    /// Nobody holds it any more.
    pub fn clear(&mut self) -> Found
        requires { self.old.held ≡ true }
        ensures { OnWord act.Clear result self.old self.new }
    {
        self.held = false;
        Found::Done
    }
}
