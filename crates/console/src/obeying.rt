ghost use Rattle.std.specs.Prelude.{◌≡◌};
ghost use Rattle.console.specs.Devices.{Obeyed};
ghost use Rattle.console.specs.Calls.{asked, bench_read, told_call, call_of};

use crate::device::Device;
use runner::{Answer, Call, perform};
use script::Request;
use std::alloc::{AllocError, Global};

// The call on the tag that a line asks for, if it asks for just one. Both types are other crates', so no conversion trait can be implemented here.
pub fn call_of<'a>(request: &'a Request) -> Option<Call<'a>>
    ensures { told_call result ≡ call_of request.now }
{
    match request {
        Request::Tag { .. } => None,
        Request::FieldOn => Some(Call::FieldOn),
        Request::FieldOff => Some(Call::FieldOff),
        Request::BenchRead { block, into } => Some(Call::BenchRead {
            block: *block,
            into: *into,
        }),
        Request::BenchWrite { block, bytes } => Some(Call::BenchWrite {
            block: *block,
            bytes: bytes.as_slice(),
        }),
        Request::Writable => Some(Call::BenchWritable),
        Request::Jis { frame, into } => Some(Call::Jis {
            frame: frame.as_slice(),
            into: *into,
        }),
        Request::TypeB { frame, into } => Some(Call::TypeB {
            frame: frame.as_slice(),
            into: *into,
        }),
        Request::Performed => Some(Call::BenchPerformed),
        Request::Dump => None,
    }
}

// The read of a whole block, of which a dump has one for each.
pub fn block_read<'a>(block: u16) -> Call<'a>
    ensures { asked result ≡ bench_read block 16 }
{
    Call::BenchRead { block, into: 16 }
}

impl Device {
    // Performs one call of any kind.
    pub fn perform(&mut self, heap: Global, call: &Call<'_>) -> Result<Answer, AllocError>
        ensures { Obeyed self.old call.now result self.new }
    {
        match self {
            Device::Flat(tag) => perform(heap, tag, call),
            Device::Log(tag) => perform(heap, tag, call),
        }
    }
}
