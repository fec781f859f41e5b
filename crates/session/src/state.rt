use crate::chain::Chain;
use crate::sending::Sending;
use type_b::FrameSize;

// The last I-block, or R(ACK) to an I-block, which an R-block with the tag's number asks for again.
#[derive(Clone, Copy)]
pub enum Last {
    Acknowledgement,
    Piece(Sending),
}

// What a tag keeps while it is ACTIVE.
#[derive(Clone, Copy)]
pub struct Session {
    pub(crate) size: FrameSize,
    pub(crate) number: bool,
    pub(crate) chain: Chain,
    pub(crate) last: Option<Last>,
}
