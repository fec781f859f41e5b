ghost use Rattle.std.specs.Prelude.{◌≡◌};
ghost use Rattle.jis.specs.Faults.{answer_code, answer_to, flags_of};

// The two commands that list blocks, with the codes of their answers.
#[derive(Clone, Copy, Debug, PartialEq, Eq)]
pub enum Access {
    Read = 0x07,
    Write = 0x09,
}

// How a READ or a WRITE went.
#[derive(Clone, Copy, Debug, PartialEq, Eq)]
pub enum Status {
    Normal,
    ServiceCount,
    ServicesDiffer,
    BlockCount,
    BadElement,
    // the frame may not read or write a block that it lists
    Protected,
}

// Which rule a frame breaks: the first, in the order in which they are checked.
#[derive(Clone, Copy, Debug, PartialEq, Eq)]
pub enum Fault {
    // LEN is under 2, or is not the frame's
    Length,
    Checksum,
    // no command has the code
    Code,
    // a REQ that is not 5 bytes long, a READ or a WRITE of less than 10
    Shape,
    ForeignIdentifier,
    ServiceCount(Access),
    // the payload ends before the number of blocks
    Truncated,
    ServicesDiffer(Access),
    BlockCount(Access),
    // list and data do not end with the payload
    ListEnd,
    BadElement(Access),
}

impl Access {
    // The code of the answer.
    pub fn answer_code(self) -> u8
        ensures { result ≡ answer_code self }
    {
        self as u8
    }
}

impl Status {
    // The two flag bytes of the answer. (A method and no `From`: its name says which two bytes these are.)
    pub fn flags(self) -> [u8; 2]
        ensures { result ≡ flags_of self }
    {
        match self {
            Status::Normal => [0x00, 0x00],
            Status::ServiceCount => [0xFF, 0xA1],
            Status::ServicesDiffer => [0xFF, 0xA3],
            Status::BlockCount => [0xFF, 0xA2],
            Status::BadElement => [0xFF, 0xA5],
            Status::Protected => [0xFF, 0x60],
        }
    }
}

impl Fault {
    // What the frame is answered: the command whose answer it is and the status, or nothing at all.
    pub fn answer(self) -> Option<(Access, Status)>
        ensures { result ≡ answer_to self }
    {
        match self {
            Fault::ServiceCount(access) => Some((access, Status::ServiceCount)),
            Fault::ServicesDiffer(access) => Some((access, Status::ServicesDiffer)),
            Fault::BlockCount(access) => Some((access, Status::BlockCount)),
            Fault::BadElement(access) => Some((access, Status::BadElement)),
            Fault::Length
            | Fault::Checksum
            | Fault::Code
            | Fault::Shape
            | Fault::ForeignIdentifier
            | Fault::Truncated
            | Fault::ListEnd => None,
        }
    }
}
