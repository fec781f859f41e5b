// Reads the lines of a simulator's script. The words of a line are separated by spaces, and its command is one of
//
//     tag flat|log [example | image HEX]
//     field on|off
//     jis HEX [into ROOM]
//     b HEX [into ROOM]
//     bench read BLOCK [into ROOM]
//     bench write BLOCK HEX
//     performed
//     writable
//     dump
//
// BLOCK and ROOM are decimal numbers. HEX is pairs of hex digits with spaces between pairs where one likes, and may
// be empty.
// A line that is empty or begins with `#` asks for nothing, and a carriage return at its end is passed over.
#![tactic(auto)]

ghost use Rattle.std.specs.Option.{option_map};
ghost use Rattle.script.specs.Words.{Gives};
ghost use Rattle.script.specs.Line.{told, read_line};

use commands::read_command;
use std::alloc::Global;
use words::Words;

mod commands;
mod fault;
mod laws;
mod values;
mod words;

pub use fault::Fault;
pub use laws::{
    faults_are_of_lines, read_requests_fit, spaces_change_nothing, written_lines_are_read,
};

#[derive(Clone, Copy, Debug, PartialEq, Eq)]
pub enum StoreKind {
    Flat,
    Log,
}

// What a tag holds at first.
#[derive(Drop)]
pub enum Contents {
    Zeros,
    Example,
    Image(Vec<u8>),
}

// What a line asks for. Most of it is a call on a tag, with bytes of its own: this crate rests on no tag, so its promises speak of lines alone.
#[derive(Drop)]
pub enum Request {
    Tag {
        store: StoreKind,
        contents: Contents,
    },
    FieldOn,
    FieldOff,
    Jis {
        frame: Vec<u8>,
        into: usize,
    },
    TypeB {
        frame: Vec<u8>,
        into: usize,
    },
    BenchRead {
        block: u16,
        into: usize,
    },
    BenchWrite {
        block: u16,
        bytes: Vec<u8>,
    },
    Performed,
    Writable,
    Dump,
}

// What a line asks for: `None` where it asks for nothing. A fault is of what is wrong furthest to the left.
pub fn read_line(heap: Global, line: &[u8]) -> Result<Option<Request>, Fault>
    ensures { Gives (option_map told) result (read_line line.now) }
{
    let mut words = Words::new(line);
    match words.next() {
        None | Some([b'#', ..]) => Ok(None),
        Some(command) => Ok(Some(read_command(heap, command, words)?)),
    }
}
