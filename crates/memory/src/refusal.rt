ghost use Rattle.std.specs.Prelude.{◌≡◌};
ghost use Rattle.memory.specs.Refusals.{refusal_number};

// Why a call is refused. A refused call changes nothing, and the first case that fits is answered.
#[derive(Clone, Copy, Debug, PartialEq, Eq)]
pub enum Refusal {
    // the bench names a block over 31
    NoSuchBlock = 1,
    // the bench brings a buffer that is not 16 bytes long
    NotBlockSized = 2,
    // an image is not 512 bytes long
    NotImageSized = 3,
    // a frame comes with a reply buffer of less than 256 bytes
    ReplyBufferShort = 4,
}

impl Refusal {
    // The number by which users know the refusal.
    pub fn number(self) -> u8
        ensures { result ≡ refusal_number self }
    {
        self as u8
    }
}
