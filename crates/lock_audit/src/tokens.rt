//! What an audit counts with: a total of each number under the lock, and the part of it that each share has.

ghost use Rattle.std.specs.Prelude.{◌≡◌, ◌+◌, ◌<◌};
ghost use Rattle.lock_audit.specs.Ledgers.{Cut};
ghost use Rattle.lock_audit.specs.Numbers.{Numbers, nothing, plus, counted, calls_of, grants_of, granted_of, refusals_of, gives_back_of};

use crate::ledgers::{Blanks, Calls, GivesBack, Granted, Grants, Ledgers, Moves, Refusals};
use std::marker::Model;
use std::sync::ledger::{Book, Share};
use world_base::{Answer, Got, Move, What};

/// Some parts of each ledger, as many of one as of the others.
pub struct Tokens<L: Ledgers> {
    moves: Share<Moves<L>>,
    calls: Share<Calls<L>>,
    grants: Share<Grants<L>>,
    refusals: Share<Refusals<L>>,
    gives_back: Share<GivesBack<L>>,
    granted: Share<Granted<L>>,
}

// By hand, so that a drop is one call to prove, and not all of its parts again.
impl<L: Ledgers> Drop for Tokens<L> {
    fn drop(self) {
        let Tokens {
            moves: _,
            calls: _,
            grants: _,
            refusals: _,
            gives_back: _,
            granted: _,
        } = self;
    }
}

impl<L: Ledgers> Model for Tokens<L> {
    ghost use Rattle.std.specs.Prelude.{◌≡◌};
    ghost use Rattle.lock_audit.specs.Ledgers.{Cut};

    ghost Value = { Cut };

    ghost view = { λ t. record { parts = t.moves.parts; numbers = record { moves = t.moves.amount; calls = t.calls.amount; grants = t.grants.amount; refusals = t.refusals.amount; gives_back = t.gives_back.amount; granted = t.granted.amount } } };

    ghost invariant = { λ t. (t.calls.parts ≡ t.moves.parts) × (t.grants.parts ≡ t.moves.parts) × (t.refusals.parts ≡ t.moves.parts) × (t.gives_back.parts ≡ t.moves.parts) × (t.granted.parts ≡ t.moves.parts) };
}

/// The totals of all tokens.
pub struct Totals<L: Ledgers> {
    moves: Book<Moves<L>>,
    calls: Book<Calls<L>>,
    grants: Book<Grants<L>>,
    refusals: Book<Refusals<L>>,
    gives_back: Book<GivesBack<L>>,
    granted: Book<Granted<L>>,
}

// By hand, so that a drop is one call to prove, and not all of its parts again.
impl<L: Ledgers> Drop for Totals<L> {
    fn drop(self) {
        let Totals {
            moves: _,
            calls: _,
            grants: _,
            refusals: _,
            gives_back: _,
            granted: _,
        } = self;
    }
}

impl<L: Ledgers> Model for Totals<L> {
    ghost use Rattle.lock_audit.specs.Numbers.{Numbers};

    ghost Value = { Numbers };

    ghost view = { λ t. record { moves = t.moves.total; calls = t.calls.total; grants = t.grants.total; refusals = t.refusals.total; gives_back = t.gives_back.total; granted = t.granted.total } };
}

/// Opens the ledgers: totals of nothing, and one token with all parts.
pub fn open<L: Ledgers>(blanks: Blanks) -> (Totals<L>, Tokens<L>)
    requires { blanks ≡ L.names }
    ensures totals { result.0 ≡ nothing }
    ensures numbers { result.1.numbers ≡ nothing }
    ensures parts { result.1.parts ≡ L.names.parts }
{
    let Blanks {
        moves,
        calls,
        grants,
        refusals,
        gives_back,
        granted,
    } = blanks;
    let (moves, all_moves) = moves.open::<Moves<L>>();
    let (calls, all_calls) = calls.open::<Calls<L>>();
    let (grants, all_grants) = grants.open::<Grants<L>>();
    let (refusals, all_refusals) = refusals.open::<Refusals<L>>();
    let (gives_back, all_gives_back) = gives_back.open::<GivesBack<L>>();
    let (granted, all_granted) = granted.open::<Granted<L>>();
    let totals = Totals {
        moves,
        calls,
        grants,
        refusals,
        gives_back,
        granted,
    };
    let tokens = Tokens {
        moves: all_moves,
        calls: all_calls,
        grants: all_grants,
        refusals: all_refusals,
        gives_back: all_gives_back,
        granted: all_granted,
    };
    (totals, tokens)
}

impl<L: Ledgers> Tokens<L> {
    /// Cuts one part off that has counted nothing, of tokens that have counted nothing.
    pub fn cut(&mut self) -> Tokens<L>
        requires some { 0 < self.old.parts }
        requires nothing { self.old.numbers ≡ nothing }
        ensures one { result.parts ≡ 1 }
        ensures numbers { result.numbers ≡ nothing }
        ensures left { self.new.parts + 1 ≡ self.old.parts }
        ensures left_numbers { self.new.numbers ≡ nothing }
    {
        Tokens {
            moves: self.moves.split_off(1, 0),
            calls: self.calls.split_off(1, 0),
            grants: self.grants.split_off(1, 0),
            refusals: self.refusals.split_off(1, 0),
            gives_back: self.gives_back.split_off(1, 0),
            granted: self.granted.split_off(1, 0),
        }
    }

    /// Takes in others, with what they counted.
    pub fn merge(&mut self, other: Tokens<L>)
        ensures parts { self.new.parts ≡ self.old.parts + other.parts }
        ensures numbers { self.new.numbers ≡ plus self.old.numbers other.numbers }
    {
        let Tokens {
            moves,
            calls,
            grants,
            refusals,
            gives_back,
            granted,
        } = other;
        self.moves.merge(moves);
        self.calls.merge(calls);
        self.grants.merge(grants);
        self.refusals.merge(refusals);
        self.gives_back.merge(gives_back);
        self.granted.merge(granted);
    }
}

impl<L: Ledgers> Totals<L> {
    /// Counts a move with its answer, on these tokens.
    pub fn count(&mut self, tokens: &mut Tokens<L>, m: Move, answer: Answer)
        requires { 0 < tokens.old.parts }
        ensures totals { self.new ≡ plus (counted m answer) self.old }
        ensures numbers { tokens.new.numbers ≡ plus (counted m answer) tokens.old.numbers }
        ensures parts { tokens.new.parts ≡ tokens.old.parts }
    {
        self.moves.add(&mut tokens.moves, 1);
        self.calls.add(&mut tokens.calls, calls(m.what, answer));
        self.grants.add(&mut tokens.grants, grants(answer));
        self.refusals.add(&mut tokens.refusals, refusals(answer));
        self.gives_back
            .add(&mut tokens.gives_back, gives_back(answer));
        self.granted.add(&mut tokens.granted, granted(answer));
    }

    /// All tokens together have counted what the totals are.
    pub fn audit(&mut self, all: &mut Tokens<L>)
        requires { all.old.parts ≡ L.names.parts }
        ensures all { self.old ≡ all.old.numbers }
        ensures totals { self.new ≡ self.old }
    {
        self.moves.audit(&mut all.moves);
        self.calls.audit(&mut all.calls);
        self.grants.audit(&mut all.grants);
        self.refusals.audit(&mut all.refusals);
        self.gives_back.audit(&mut all.gives_back);
        self.granted.audit(&mut all.granted);
    }
}

/// How many calls are begun by a move that is answered so: one, or none.
fn calls(what: What, answer: Answer) -> u64
    ensures { result ≡ calls_of what answer }
{
    match what {
        What::Begin(..) => match answer {
            Answer::NotPossible => 0,
            _ => 1,
        },
        What::Go(_) => 0,
    }
}

/// How many calls succeed by this answer.
fn grants(answer: Answer) -> u64
    ensures { result ≡ grants_of answer }
{
    match answer {
        Answer::Ready(_) | Answer::Granted(_) => 1,
        _ => 0,
    }
}

/// How many calls are refused by this answer.
fn refusals(answer: Answer) -> u64
    ensures { result ≡ refusals_of answer }
{
    match answer {
        Answer::None | Answer::Refused(_) => 1,
        _ => 0,
    }
}

/// How many calls give back by this answer.
fn gives_back(answer: Answer) -> u64
    ensures { result ≡ gives_back_of answer }
{
    match answer {
        Answer::GivenBack => 1,
        _ => 0,
    }
}

/// The value that is granted by this answer, or 0.
fn granted(answer: Answer) -> u64
    ensures { result ≡ granted_of answer }
{
    match answer {
        Answer::Ready(Got::Value(value)) | Answer::Granted(Got::Value(value)) => value,
        _ => 0,
    }
}
