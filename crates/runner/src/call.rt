use memory::Refusal;
use system::Writable;

// A call on a tag, with its arguments.
#[derive(Clone, Copy, Debug, PartialEq, Eq)]
pub enum Call<'a> {
    FieldOn,
    FieldOff,
    // into a buffer of that many zeros
    BenchRead { block: u16, into: usize },
    BenchWrite { block: u16, bytes: &'a [u8] },
    BenchWritable,
    // with a reply buffer of that many zeros
    Jis { frame: &'a [u8], into: usize },
    TypeB { frame: &'a [u8], into: usize },
    BenchPerformed,
}

// What a call answers. A buffer stands whole beside the length of the reply in it, since what a call leaves past the reply is promised too.
#[derive(Debug, PartialEq, Drop)]
pub enum Answer {
    // a field change answers nothing
    Field,
    // with the buffer as the read left it
    Read {
        result: Result<(), Refusal>,
        buffer: Vec<u8>,
    },
    Written {
        result: Result<(), Refusal>,
    },
    Figure {
        writable: Writable,
    },
    // with the reply buffer as the call left it
    Framed {
        result: Result<Option<usize>, Refusal>,
        buffer: Vec<u8>,
    },
    // how many commands of Type B the tag has performed
    Performed {
        count: u64,
    },
}
