ghost use Rattle.std.specs.Prelude.{◌≡◌};
ghost use Rattle.command.specs.Orders.{status_bytes};
ghost use Rattle.command.specs.declared.status.Status.TheVariants.{WrongParameters};

use memory::PastEnd;

// How a command went.
#[derive(Clone, Copy, PartialEq, Eq, Debug)]
pub enum Status {
    Normal,
    WrongLength,
    WrongClass,
    WrongInstruction,
    WrongParameters,
    // the frame may not read or write a block of the range
    NotAllowed,
}

impl Status {
    // SW1 and SW2, the last two bytes of each answer. (A method and no `From`: its name says which two bytes these are.)
    pub fn bytes(self) -> [u8; 2]
        ensures { result ≡ status_bytes self }
    {
        match self {
            Status::Normal => [0x90, 0x00],
            Status::WrongLength => [0x67, 0x00],
            Status::WrongClass => [0x6E, 0x00],
            Status::WrongInstruction => [0x6D, 0x00],
            Status::WrongParameters => [0x6A, 0x86],
            Status::NotAllowed => [0x6F, 0x00],
        }
    }
}

// An address past the memory is a wrong parameter.
impl From<PastEnd> for Status {
    ghost from_gives = { λ _ status. status ≡ WrongParameters };

    fn from(_: PastEnd) -> Status {
        Self::WrongParameters
    }
}
