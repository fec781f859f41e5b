ghost use Rattle.std.specs.Prelude.{◌≡◌, ◌==◌, not, position, Ok};
ghost use Rattle.std.specs.List.{position_or_len};
ghost use Rattle.std.specs.Str.{bytes_eq};
ghost use Rattle.script.specs.Words.{words_of, without_return, and_then, ended};

use crate::fault::Fault;

// The place of the first byte that is no space.
fn word_start(line: &[u8]) -> Option<usize>
    ensures { result ≡ position (λ c. not (c == 32)) line.now }
{
    line.iter().position(|c| *c != b' ')
}

// How many bytes stand before the first space, or in all.
fn word_len(line: &[u8]) -> usize
    ensures { result ≡ position_or_len (λ c. c == 32) line.now }
{
    line.iter().take_while(|c| **c != b' ').count()
}

// The words of a line that are still to be read.
#[derive(Drop)]
pub(crate) struct Words<'a> {
    pub(crate) rest: &'a [u8],
}

impl<'a> Words<'a> {
    // A carriage return at the end of the line is passed over.
    pub(crate) fn new(line: &'a [u8]) -> Words<'a>
        ensures { result.rest.now ≡ without_return line.now }
    {
        match line {
            [rest @ .., b'\r'] => Words { rest },
            _ => Words { rest: line },
        }
    }
}

impl<'a> Iterator for Words<'a> {
    ghost use Rattle.std.specs.Iterator.{YieldsFirstBy, item_count};
    ghost use Rattle.script.specs.Words.{words_of};

    type Item = &'a [u8];

    ghost next_gives = { YieldsFirstBy (λ w. w.now) (λ s. words_of s.rest.now) };

    ghost remaining = { item_count (λ s. words_of s.rest.now) };

    fn next(&mut self) -> Option<&'a [u8]> {
        let line = &self.rest[word_start(self.rest)?..];
        let (word, rest) = line.split_at(word_len(line));
        self.rest = rest;
        Some(word)
    }
}

// The value that the words before gave, where no word follows.
pub(crate) fn complete<T: Drop>(mut words: Words<'_>, value: T) -> Result<T, Fault>
    ensures { result ≡ and_then (ended (words_of words.entry.rest.now)) (λ _. Ok value) }
{
    match words.next() {
        None => Ok(value),
        Some(_) => Err(Fault::TooMany),
    }
}

// A comparison whose contract is a test, as the definition of the language has it.
pub(crate) fn is(word: &[u8], name: &[u8]) -> bool
    ensures { result ≡ bytes_eq word.now name.now }
{
    word == name
}
