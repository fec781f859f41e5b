//! How answers are printed: text only, nothing is proved of it but that it is safe and ends.
#![tactic(auto)]

use memory::Refusal;
use runner::Answer;
use std::fmt;

// Bytes, two hex digits each.
#[derive(Clone, Copy)]
struct Hex<'a>(&'a [u8]);

impl<'a> fmt::Display for Hex<'a> {
    fn fmt<W: fmt::Write>(&self, f: &mut fmt::Formatter<W>) -> fmt::Result {
        for byte in self.0 {
            write!(f, "{byte:02X}")?;
        }
        Ok(())
    }
}

// Why a call is refused, by its number.
#[derive(Clone, Copy)]
pub struct Refused(pub Refusal);

impl fmt::Display for Refused {
    fn fmt<W: fmt::Write>(&self, f: &mut fmt::Formatter<W>) -> fmt::Result {
        write!(f, "refused {}", self.0.number())
    }
}

// The answer of one call, in one line.
#[derive(Clone, Copy)]
pub struct Line<'a>(pub &'a Answer);

impl<'a> fmt::Display for Line<'a> {
    fn fmt<W: fmt::Write>(&self, f: &mut fmt::Formatter<W>) -> fmt::Result {
        match self.0 {
            Answer::Field | Answer::Written { result: Ok(()) } => f.write_str("ok"),
            Answer::Read {
                result: Ok(()),
                buffer,
            } => write!(f, "block {}", Hex(buffer.as_slice())),
            Answer::Figure { writable } => match writable.lowest {
                Some(block) => write!(f, "{} from {}", writable.count, block.index()),
                None => write!(f, "{} none", writable.count),
            },
            Answer::Framed {
                result: Ok(Some(length)),
                buffer,
            } => write!(
                f,
                "reply {}",
                Hex(&buffer.as_slice()[..buffer.len().min(*length)])
            ),
            Answer::Framed {
                result: Ok(None),
                ..
            } => f.write_str("silence"),
            Answer::Performed { count } => write!(f, "performed {count}"),
            Answer::Read {
                result: Err(refusal),
                ..
            }
            | Answer::Written {
                result: Err(refusal),
            }
            | Answer::Framed {
                result: Err(refusal),
                ..
            } => write!(f, "{}", Refused(*refusal)),
        }
    }
}

// One block of a dump, in one line.
#[derive(Clone, Copy)]
pub struct Dumped<'a> {
    pub block: u16,
    pub bytes: &'a [u8],
}

impl<'a> fmt::Display for Dumped<'a> {
    fn fmt<W: fmt::Write>(&self, f: &mut fmt::Formatter<W>) -> fmt::Result {
        write!(f, "{:02}: {}", self.block, Hex(self.bytes))
    }
}
