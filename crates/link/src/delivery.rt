// What becomes of an exchange.
#[derive(Clone, Copy, Debug, PartialEq, Eq)]
pub enum Delivery {
    // the tag never takes the frame
    FrameLost,
    // the tag takes the frame, and its reply is not heard
    ReplyLost,
    // the tag takes the frame, and its reply is heard
    Complete,
}
