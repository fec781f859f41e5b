ghost use Rattle.std.specs.Prelude.{◌≡◌};
ghost use Rattle.std.specs.Result.{result_ok};
ghost use Rattle.type_b.specs.Sizes.{size_code, size_of};

// The longest frame that the reader takes, as ATTRIB chooses it.
#[derive(Clone, Copy, Debug, PartialEq, Eq)]
pub enum FrameSize {
    Bytes64 = 64,
    Bytes96 = 96,
    Bytes128 = 128,
    Bytes256 = 256,
}

impl FrameSize {
    // A method and no `From`: a number made from a size would not say what it counts.
    pub fn bytes(self) -> usize
        ensures { result ≡ size_of self }
    {
        self as usize
    }
}

// What stands for no size that the tag takes.
#[derive(Clone, Copy, Debug, PartialEq, Eq)]
pub struct UnknownSize;

// The size that the low half of Param2 stands for, if the tag takes it.
impl TryFrom<u8> for FrameSize {
    type Error = UnknownSize;

    ghost try_from_gives = { λ code r. result_ok r ≡ size_code code };

    fn try_from(code: u8) -> Result<Self, UnknownSize> {
        match code {
            5 => Ok(FrameSize::Bytes64),
            6 => Ok(FrameSize::Bytes96),
            7 => Ok(FrameSize::Bytes128),
            8 => Ok(FrameSize::Bytes256),
            _ => Err(UnknownSize),
        }
    }
}
