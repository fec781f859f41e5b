use console::{Device, block_read, call_of};
use printing::{Dumped, Line, Refused};
use runner::Answer;
use script::{Contents, Fault, Request, StoreKind, read_line};
use std::alloc::{AllocError, Global};
use std::fmt;
use std::io::{self, Write};

// Why a line has no answer.
#[derive(Drop)]
pub enum Failure {
    // the line is wrong, or asks for more memory than there is; the next one can be answered
    Line(Fault),
    OutOfMemory,
    Output(io::Error),
}

impl fmt::Display for Failure {
    fn fmt<W: fmt::Write>(&self, f: &mut fmt::Formatter<W>) -> fmt::Result {
        match self {
            Failure::Line(fault) => write!(f, "{fault}"),
            Failure::OutOfMemory => f.write_str("out of memory"),
            Failure::Output(error) => write!(f, "{error}"),
        }
    }
}

impl From<Fault> for Failure {
    fn from(fault: Fault) -> Failure {
        Failure::Line(fault)
    }
}

impl From<AllocError> for Failure {
    fn from(_error: AllocError) -> Failure {
        Failure::OutOfMemory
    }
}

impl From<io::Error> for Failure {
    fn from(error: io::Error) -> Failure {
        Failure::Output(error)
    }
}

// A tag, and where the answers of the lines go.
#[derive(Drop)]
pub struct Simulator<W> {
    heap: Global,
    device: Device,
    pub out: W,
}

// The tag that a run starts with.
fn example() -> Device {
    match Device::load(StoreKind::Flat, &Contents::Example) {
        Ok(device) => device,
        Err(_) => unreachable(),
    }
}

impl<W: Write> Simulator<W> {
    pub fn new(heap: Global, out: W) -> Simulator<W> {
        Simulator {
            heap,
            device: example(),
            out,
        }
    }

    // Answers one line. One that cannot be read leaves the device as it was.
    pub fn answer(&mut self, line: &[u8]) -> Result<(), Failure> {
        let Some(request) = read_line(self.heap, line)? else {
            return Ok(());
        };
        if let Some(call) = call_of(&request) {
            let answer = self.device.perform(self.heap, &call)?;
            writeln!(self.out, "{}", Line(&answer))?;
            return Ok(());
        }
        match &request {
            Request::Tag { store, contents } => self.renew(*store, contents),
            _ => self.dump(),
        }
    }

    // A new tag, or the refusal and the tag as it was.
    fn renew(&mut self, store: StoreKind, contents: &Contents) -> Result<(), Failure> {
        match Device::load(store, contents) {
            Ok(device) => {
                self.device = device;
                writeln!(self.out, "ok")?;
            }
            Err(refusal) => writeln!(self.out, "{}", Refused(refusal))?,
        }
        Ok(())
    }

    // All blocks, a line each.
    fn dump(&mut self) -> Result<(), Failure> {
        for block in 0..32u16 {
            // a read is answered as a read, and by nothing else
            if let Answer::Read { buffer, .. } = self
                .device
                .perform(self.heap, &block_read(block))?
            {
                let bytes = buffer.as_slice();
                writeln!(self.out, "{}", Dumped { block, bytes })?;
            }
        }
        Ok(())
    }
}
