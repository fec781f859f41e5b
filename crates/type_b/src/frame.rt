use crate::size::FrameSize;

// A frame by its parts. A block number, 0 or 1, is a bit; that of an I-block is of no effect, so it is not kept.
#[derive(Clone, Copy, Debug, PartialEq, Eq)]
pub enum Frame<'a> {
    // 05: REQB or WUPB
    Request { afi: u8, param: u8 },
    // 1D
    Attrib { pupi: &'a [u8], size: FrameSize },
    // 50: HLTB
    Halt { pupi: &'a [u8] },
    // C2
    Deselect,
    // an I-block, chained if more of the command follows: a bit of its PCB, and INF is there either way
    Information { chained: bool, inf: &'a [u8] },
    // R(ACK)
    Ack { number: bool },
    // R(NAK)
    Nak { number: bool },
}
