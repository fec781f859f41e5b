ghost use Rattle.std.specs.Prelude.{◌≡◌};
ghost use Rattle.script.specs.declared.fault.Fault.TheVariants.{OutOfMemory};
ghost use Rattle.script.specs.Messages.{message_of};

use std::alloc::AllocFailed;
use std::error::Error;
use std::fmt;

// Why a line is refused: what is wrong furthest to the left, or that memory ran out.
#[derive(Clone, Copy, Debug, PartialEq, Eq)]
pub enum Fault {
    UnknownCommand,
    TagStore,
    TagContents,
    FieldState,
    BenchAction,
    NotInto,
    NumberMissing,
    NotANumber,
    NotHex,
    OddDigits,
    TooMany,
    OutOfMemory,
}

impl Fault {
    // What to tell the user, who can then mend the line.
    pub fn message(&self) -> &'static str
        ensures { result.now ≡ message_of self.now }
    {
        match self {
            Fault::UnknownCommand =>
                "unknown command: use tag, field, jis, b, bench, performed, writable or dump",
            Fault::TagStore => "tag wants 'flat' or 'log'",
            Fault::TagContents =>
                "after the store, tag wants nothing, 'example', or 'image' and hex digits",
            Fault::FieldState => "field wants 'on' or 'off'",
            Fault::BenchAction => "bench wants 'read' or 'write'",
            Fault::NotInto => "after the block, bench read wants nothing, or 'into' and a number",
            Fault::NumberMissing => "a number is missing at the end of the line",
            Fault::NotANumber => "a number has only the digits 0 to 9",
            Fault::NotHex => "a byte is two hex digits, 0 to 9, a to f or A to F",
            Fault::OddDigits => "hex digits come in pairs: a word has an odd number of them",
            Fault::TooMany => "the command is complete: remove the words after it",
            Fault::OutOfMemory => "there is not enough memory for the bytes of this line",
        }
    }
}

impl fmt::Display for Fault {
    fn fmt<W: fmt::Write>(&self, f: &mut fmt::Formatter<W>) -> fmt::Result {
        f.write_str(self.message())
    }
}

impl Error for Fault {}

impl<T: Drop> From<AllocFailed<T>> for Fault {
    ghost from_gives = { λ _ e. e ≡ OutOfMemory };

    fn from(_failed: AllocFailed<T>) -> Fault {
        Self::OutOfMemory
    }
}
