//! A World with the history of its moves.

ghost use Rattle.std.specs.Prelude.{◌≡◌, ◌+◌, ◌<◌, ◌≤◌, [], ◌∷◌, ◌++◌, length, IsOk, IfOk, OnOk, OnErr};

use lock_event::Memory;
use std::alloc::Global;
use std::marker::Model;
use world_base::{Answer, AnyWorld, Move};

/// A World of any lock, and the history of its moves, each with its answer.
///
/// Whatever the moves were, the history replays: it leads by legal steps from the World as it was made
/// to the World as it is. That is true of every `Book` that exists, since it is part of the type;
/// [`Book::replays`] hands it to a proof.
pub struct Book<W: AnyWorld> {
    world: W,
    history: Vec<(Move, Answer)>,
}

// By hand, so that a drop is one call to prove, and not all of its parts again.
impl<W: AnyWorld + Drop> Drop for Book<W> {
    fn drop(self) {
        let Book {
            world: _,
            history: _,
        } = self;
    }
}

impl<W: AnyWorld> Model for Book<W> {
    ghost use Rattle.std.specs.Prelude.{vec_capacity};
    ghost use Rattle.lock_audit.specs.Histories.{Pages, Replays};

    ghost Value = { Pages W };

    ghost view = { λ b. record { world = b.world; history = b.history.items; room = vec_capacity b.history } };

    ghost invariant = { λ b. Replays W.legal (W.opening b.world) b.history.items b.world };
}

ghost use Rattle.lock_audit.specs.Histories.{Replays};

impl<W: AnyWorld> Book<W> {
    /// A book of a World as its constructor left it, with no history. It takes no memory yet: it has room
    /// for no move (`room`).
    pub fn new(alloc: Global, world: W) -> Book<W>
        requires { world ≡ W.opening world }
        ensures world { result.world ≡ world }
        ensures history { result.history ≡ [] }
        ensures room { result.room ≡ 0 }
    {
        Book {
            world,
            history: Vec::new(alloc),
        }
    }

    /// Makes room for `n` moves more than are recorded now (`room`): while the history is shorter than
    /// that, [`Book::record`] isn't refused.
    ///
    /// [`Memory`] comes only where that room was missing (`succeeds`) and memory was refused. The book then
    /// is as it was (`refused`). World and history stay in any case (`world`, `history`), and room never
    /// shrinks (`kept`).
    pub fn reserve(&mut self, n: usize) -> Result<(), Memory>
        ensures world { self.new.world ≡ self.old.world }
        ensures history { self.new.history ≡ self.old.history }
        ensures room { OnOk result (length self.old.history + n ≤ self.new.room) }
        ensures kept { self.old.room ≤ self.new.room }
        ensures succeeds { length self.old.history + n ≤ self.old.room → IsOk result }
        ensures refused { OnErr result (self.new ≡ self.old) }
    {
        match self.history.reserve(n) {
            Ok(()) => Ok(()),
            Err(_) => Err(Memory),
        }
    }

    /// Makes a move and records it with its answer (`recorded`, `legal`).
    ///
    /// [`Memory`] comes only where the history is as long as its room (`succeeds`) and memory for it was
    /// refused. Then nothing is recorded and nothing stepped (`refused`), and the same move can be made
    /// again. Room never shrinks (`room`).
    pub fn record(&mut self, m: Move) -> Result<Answer, Memory>
        ensures recorded { IfOk result (λ a. self.new.history ≡ self.old.history ++ (m, a) ∷ []) }
        ensures legal { IfOk result (λ a. W.legal self.old.world m a self.new.world) }
        ensures refused { OnErr result (self.new ≡ self.old) }
        ensures succeeds { length self.old.history < self.old.room → IsOk result }
        ensures room { self.old.room ≤ self.new.room }
    {
        if self.history.reserve(1).is_err() {
            return Err(Memory);
        }
        let answer = self.world.step(&m);
        self.history.push_reserved((m, answer));
        Ok(answer)
    }

    /// The World.
    pub fn world(&self) -> &W
        ensures { result.now ≡ self.now.world }
    {
        &self.world
    }

    /// The history, oldest move first.
    pub fn history(&self) -> &[(Move, Answer)]
        ensures { result.now ≡ self.now.history }
    {
        &self.history
    }

    /// What always holds of a book: its history replays. It does nothing.
    pub fn replays(&self)
        ensures { Replays W.legal (W.opening self.now.world) self.now.history self.now.world }
    {
        let _ = &self.world;
    }
}
