//! A book under one lock, for any number of threads, each with a share of what is counted.

ghost use Rattle.std.specs.Prelude.{◌≡◌, ◌++◌, [], ◌∷◌, IfOk, OnErr, vec_len};
ghost use Rattle.std.specs.List.{All};
ghost use Rattle.lock_audit.specs.Numbers.{Numbers, nothing, plus, counted, numbers_of, sums};

use crate::book::Book;
use crate::ledgers::{Blanks, Ledgers};
use crate::tokens::{self, Tokens, Totals};
use lock_event::Memory;
use std::alloc::Global;
use std::marker::Model;
use std::sync::{Mutex, Wait};
use world_base::{Answer, AnyWorld, Move};

/// One share of an audit. Contracts see the numbers that were counted on it. It takes no bytes.
///
/// A share that is dropped is never handed in again, so its book can't be closed.
#[derive(Drop)]
pub struct Share<L: Ledgers> {
    tokens: Tokens<L>,
}

impl<L: Ledgers> Model for Share<L> {
    ghost use Rattle.std.specs.Prelude.{◌≡◌};
    ghost use Rattle.lock_audit.specs.Numbers.{Numbers};

    ghost Value = { Numbers };

    ghost view = { λ s. s.tokens.numbers };

    ghost invariant = { λ s. s.tokens.parts ≡ 1 };
}

/// What stands under the lock: the book, and the totals of all shares, which are the book's numbers.
#[derive(Drop)]
struct Counted<W: AnyWorld, L: Ledgers> {
    book: Book<W>,
    totals: Totals<L>,
    // What is left once all shares are cut off: no part.
    rest: Tokens<L>,
}

impl<W: AnyWorld, L: Ledgers> Model for Counted<W, L> {
    ghost use Rattle.std.specs.Prelude.{◌≡◌};
    ghost use Rattle.lock_audit.specs.Histories.{Pages};
    ghost use Rattle.lock_audit.specs.Numbers.{nothing, numbers_of};

    ghost Value = { Pages W };

    ghost view = { λ c. c.book };

    ghost invariant = { λ c. (c.totals ≡ numbers_of c.book.history) × (c.rest.parts ≡ 0) × (c.rest.numbers ≡ nothing) };
}

impl<W: AnyWorld, L: Ledgers> Counted<W, L> {
    /// Records a move, and counts it on this share.
    fn step(&mut self, share: &mut Share<L>, m: Move) -> Result<Answer, Memory>
        ensures recorded { IfOk result (λ a. self.new.history ≡ self.old.history ++ (m, a) ∷ []) }
        ensures counted { IfOk result (λ a. share.new ≡ plus (counted m a) share.old) }
        ensures refused { OnErr result ((self.new ≡ self.old) × (share.new ≡ share.old)) }
    {
        let answer = self.book.record(m)?;
        self.totals.count(&mut share.tokens, m, answer);
        Ok(answer)
    }
}

/// A book of a World of any lock, under one lock, for any number of threads.
#[derive(Drop)]
pub struct Audited<W: AnyWorld, L: Ledgers> {
    counted: Mutex<Counted<W, L>>,
}

impl<W: AnyWorld + Drop, L: Ledgers> Audited<W, L> {
    /// A book of this World, which is as its constructor left it, and so many shares, on which nothing is
    /// counted. The blanks are those of the ledgers, cut into as many parts.
    ///
    /// [`Memory`] comes only where memory for the list of shares was refused. The World is dropped.
    pub fn new(
        alloc: Global,
        blanks: Blanks,
        world: W,
        shares: u32,
    ) -> Result<(Audited<W, L>, Vec<Share<L>>), Memory>
        requires opening { world ≡ W.opening world }
        requires names { blanks ≡ L.names }
        requires parts { L.names.parts ≡ shares }
        ensures shares { IfOk result (λ made. vec_len made.1 ≡ shares) }
        ensures nothing { IfOk result (λ made. All (λ numbers. numbers ≡ nothing) made.1.items) }
    {
        let (totals, mut rest) = tokens::open::<L>(blanks);
        let Ok(all) = cut_shares(alloc, &mut rest, shares) else {
            return Err(Memory);
        };
        let counted = Mutex::new(Counted {
            book: Book::new(alloc, world),
            totals,
            rest,
        });
        Ok((Audited { counted }, all))
    }

    /// Makes a move and records it with its answer, and counts it on this share.
    pub fn step<R: Wait>(&self, rt: &R, share: &mut Share<L>, m: Move) -> Result<Answer, Memory>
        ensures counted { IfOk result (λ a. share.new ≡ plus (counted m a) share.old) }
        ensures refused { OnErr result (share.new ≡ share.old) }
    {
        self.counted.lock(rt).step(share, m)
    }

    /// The book, once all shares are handed in: its numbers are the sums of what was counted on them.
    pub fn close(self, shares: Vec<Share<L>>) -> Book<W>
        requires { vec_len shares ≡ L.names.parts }
        ensures { numbers_of result.history ≡ sums shares.items }
    {
        let Audited { counted } = self;
        let Counted {
            book,
            mut totals,
            rest,
        } = counted.into_inner();
        let mut all = merged(rest, shares);
        totals.audit(&mut all);
        book
    }
}

// Cuts so many shares off these tokens, which are as many parts, and on which nothing is counted.
fn cut_shares<L: Ledgers>(
    alloc: Global,
    rest: &mut Tokens<L>,
    shares: u32,
) -> Result<Vec<Share<L>>, Memory>
    requires parts { rest.old.parts ≡ shares }
    requires nothing { rest.old.numbers ≡ nothing }
    ensures shares { IfOk result (λ all. vec_len all ≡ shares) }
    ensures nothing { IfOk result (λ all. All (λ numbers. numbers ≡ nothing) all.items) }
    ensures rest { IfOk result (λ _. (rest.new.parts ≡ 0) × (rest.new.numbers ≡ nothing)) }
{
    let mut all = Vec::new(alloc);
    for _ in 0..shares {
        let share = Share { tokens: rest.cut() };
        if all.push(share).is_err() {
            return Err(Memory);
        }
    }
    Ok(all)
}

// The tokens of all shares together, with what is left of those that the shares were cut off.
fn merged<L: Ledgers>(rest: Tokens<L>, shares: Vec<Share<L>>) -> Tokens<L>
    requires { (rest.parts ≡ 0) × (rest.numbers ≡ nothing) }
    ensures parts { result.parts ≡ vec_len shares }
    ensures numbers { result.numbers ≡ sums shares.items }
{
    let mut all = rest;
    for share in shares {
        let Share { tokens } = share;
        all.merge(tokens);
    }
    all
}
