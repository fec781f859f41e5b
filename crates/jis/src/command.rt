ghost use Rattle.std.specs.Prelude.{◌≡◌, ◌*◌, length};

use crate::blocks::Blocks;

// The parts of a WRITE.
#[derive(Clone, Copy, Debug, PartialEq, Eq)]
pub struct BlockWrite<'a> {
    pub services: &'a [u8],
    pub blocks: Blocks<'a>,
    pub data: &'a [u8],
    // 16 bytes of data for each block
    ghost data_for_each: { length data.now ≡ 16 * blocks.left },
}

// A command that the tag is to carry out. Its parts are lent from the frame.
#[derive(Clone, Copy, Debug, PartialEq, Eq)]
pub enum Command<'a> {
    Req {
        system_code: [u8; 2],
        // any byte, of which two ask for something
        request: u8,
        slot: u8,
    },
    Read {
        services: &'a [u8],
        blocks: Blocks<'a>,
    },
    Write(BlockWrite<'a>),
}
