//! What a once-cell has in it, and the words that say so.

ghost use Rattle.std.specs.Prelude.{◌≡◌, None};
ghost use Rattle.world_once_cell.specs.program.Effects.{FindsContent, claimed_after};
ghost use Rattle.world_once_cell.specs.program.Words.{content_of, kept_of, value_in};
ghost use Rattle.world_once_cell.specs.declared.program.words.Content.TheVariants as contents;

use sync_program::once_cell::Found;

/// What a once-cell has in it.
#[derive(Clone, Copy, Debug, PartialEq, Eq)]
pub enum Content {
    /// Nothing, and nobody makes its value.
    Empty,
    /// Nothing yet: this party makes its value.
    BeingMade(u32),
    /// This value.
    Full(u64),
}

/// How far a cell is.
#[derive(Clone, Copy)]
pub enum State {
    /// Nobody has begun to make its value.
    Empty,
    /// This party makes its value.
    BeingMade(u32),
    /// A value entered. It may have been taken from outside every call since.
    Full,
}

/// The state of a cell, and its value beside it. A full cell whose value was taken is empty.
#[derive(Drop)]
pub struct Words {
    pub state: State,
    pub value: Option<u64>,
}

impl Words {
    /// Those of an empty cell.
    pub fn new() -> Words
        ensures content { content_of result ≡ contents.Empty }
        ensures kept { kept_of result ≡ contents.Empty }
    {
        Words {
            state: State::Empty,
            value: None,
        }
    }

    /// What is in the cell.
    pub fn content(&self) -> Content
        ensures { result ≡ content_of self.now }
    {
        match self.state {
            State::Empty => Content::Empty,
            State::BeingMade(party) => Content::BeingMade(party),
            State::Full => match self.value {
                Some(value) => Content::Full(value),
                None => Content::Empty,
            },
        }
    }

    /// The state follows the value, which may have been taken or put from outside every call. What is in the
    /// cell stays.
    pub fn settle(&mut self)
        ensures content { content_of self.new ≡ content_of self.old }
        ensures kept { kept_of self.new ≡ content_of self.new }
        ensures value { self.new.value ≡ value_in (content_of self.new) }
    {
        match self.state {
            State::Full => {
                if self.value.is_none() {
                    self.state = State::Empty;
                }
            }
            _ => self.value = None,
        }
    }

    /// What a look finds.
    pub fn look(&self) -> Found<u64>
        ensures { FindsContent result (content_of self.now) }
    {
        match self.content() {
            Content::Empty => Found::Empty,
            Content::BeingMade(_) => Found::BeingMade,
            Content::Full(value) => Found::Full(value),
        }
    }

    /// The party begins to make the value, if the cell is empty. What it found is what stood before.
    pub fn claim(&mut self, party: u32) -> Found<u64>
        requires { kept_of self.old ≡ content_of self.old }
        ensures finds { FindsContent result (content_of self.old) }
        ensures content { content_of self.new ≡ claimed_after party result (content_of self.old) }
        ensures kept { kept_of self.new ≡ content_of self.new }
    {
        let found = self.look();
        if let Found::Empty = found {
            self.state = State::BeingMade(party);
        }
        found
    }

    /// The value that was made enters the cell.
    pub fn fill(&mut self, value: u64)
        ensures content { content_of self.new ≡ contents.Full value }
        ensures kept { kept_of self.new ≡ contents.Full value }
    {
        self.value = Some(value);
        self.state = State::Full;
    }

    /// The making ends, and no value enters.
    pub fn empty(&mut self)
        ensures content { content_of self.new ≡ contents.Empty }
        ensures kept { kept_of self.new ≡ contents.Empty }
    {
        self.state = State::Empty;
    }
}

/// Takes the value out of a cell, where nobody is inside a call. None where there is none.
pub fn take_from(value: &mut Option<u64>) -> Option<u64>
    ensures taken { result ≡ value.old }
    ensures left { value.new ≡ None }
{
    value.take()
}
