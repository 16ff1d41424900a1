//! The lines of a script: their bytes, their words and their numbers.

ghost use Rattle.std.specs.Prelude.{◌≡◌, ◌↔◌, ℕ, List, ◌∷◌, IsTrue, IfSome, IfNone};
ghost use Rattle.std.specs.Iterator.{YieldsFirstRef, item_count};
ghost use Rattle.std.specs.List.{before_first, after_first, position_or_len};
ghost use Rattle.lockrun_script.specs.Lines.{words_of, is_byte, IsDecimal, IsPrintable, IsSkipped, IsTrimmed, IsNumber, Writes, BeginsWithNoNumber};

use std::marker::Model;

/// Whether each byte of the line is printable ASCII, 0x20 to 0x7e.
pub fn is_printable(line: &[u8]) -> bool
    ensures { IsTrue result ↔ IsPrintable line.now }
{
    line.iter().all(|byte| (0x20..=0x7e).contains(byte))
}

/// Whether the line is skipped without an answer: it is empty, or a comment in printable ASCII.
pub fn is_skipped(line: &[u8]) -> bool
    ensures { IsTrue result ↔ IsSkipped line.now }
{
    match line.first() {
        None => true,
        Some(first) => *first == b'#' && is_printable(line),
    }
}

/// Whether no space stands at either end of the line.
pub fn is_trimmed(line: &[u8]) -> bool
    ensures { IsTrue result ↔ IsTrimmed line.now }
{
    line.first() != Some(&b' ') && line.last() != Some(&b' ')
}

/// Whether a word is this one, compared as a whole. The prover has much more to do with patterns of bytes,
/// and with a comparison of slices written out in each arm.
pub fn is(word: &[u8], name: &[u8]) -> bool
    ensures { IsTrue result ↔ (word.now ≡ name.now) }
{
    word == name
}

/// The number that a word writes: 1 to 20 decimal digits, leading zeros among them, whose value fits 64
/// bits. Any other word is none.
pub fn number(word: &[u8]) -> Option<u64>
    ensures value { IfSome result (Writes word.now) }
    ensures refused { IfNone result (¬ IsNumber word.now) }
{
    if word.len() > 20 || !is_digits(word) {
        return None;
    }
    let text = str::from_utf8(word).ok()?;
    text.parse().ok()
}

/// Whether each byte is a decimal digit.
fn is_digits(word: &[u8]) -> bool
    ensures { IsTrue result ↔ IsDecimal word.now }
{
    word.iter().all(|byte| byte.is_ascii_digit())
}

/// The words of a line that are still to come, front first. In a contract it is the list of them.
#[derive(Drop)]
pub struct Words<'a> {
    rest: &'a [u8],
}

impl<'a> Model for Words<'a> {
    ghost Value = { List (List ℕ) };

    ghost view = { λ w. words_of w.rest.now };
}

impl<'a> Words<'a> {
    /// All words of this line.
    pub fn new(line: &'a [u8]) -> Words<'a>
        ensures { result ≡ words_of line.now }
    {
        Words { rest: line }
    }

    /// The number that the next word writes, which then is taken. Where it writes none, or no word is left,
    /// nothing is taken.
    pub fn number(&mut self) -> Option<u64>
        ensures taken { IfSome result (λ n. (word : List ℕ) × (self.old ≡ word ∷ self.new) × Writes word n) }
        ensures none { IfNone result ((self.new ≡ self.old) × BeginsWithNoNumber self.old) }
    {
        let mut ahead = Words { rest: self.rest };
        let number = number(ahead.next()?)?;
        self.rest = ahead.rest;
        Some(number)
    }
}

impl<'a> Iterator for Words<'a> {
    type Item = &'a [u8];

    ghost next_gives = { YieldsFirstRef (λ words. words) };

    ghost remaining = { item_count (λ words. words) };

    fn next(&mut self) -> Option<&'a [u8]> {
        let mut rest = self.rest;
        while !rest.is_empty() {
            let (piece, after) = cut(rest, b' ');
            rest = after;
            if !piece.is_empty() {
                self.rest = rest;
                return Some(piece);
            }
        }
        None
    }
}

/// The piece before the first byte that is `end`, and what stands after that byte. With no such byte the
/// piece is all, and nothing stands after it.
pub fn cut(text: &[u8], end: u8) -> (&[u8], &[u8])
    ensures piece { result.0.now ≡ before_first (is_byte end) text.now }
    ensures after { result.1.now ≡ after_first (is_byte end) text.now }
{
    let (piece, rest) = text.split_at(first_end(text, end));
    match rest.split_first() {
        Some((_, after)) => (piece, after),
        None => (piece, rest),
    }
}

/// How many bytes stand before the first byte that is `end`, or in all where there is none.
fn first_end(text: &[u8], end: u8) -> usize
    ensures { result ≡ position_or_len (is_byte end) text.now }
{
    text.iter()
        .position(|byte| *byte == end)
        .unwrap_or(text.len())
}
