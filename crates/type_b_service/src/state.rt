use reply::Body;
use session::Session;

// What a frame is answered, and whether it completed a command, which was performed.
#[derive(Clone, Copy)]
pub struct Served {
    pub body: Body,
    pub performed: bool,
}

// The state of a tag with the field on, and what belongs to it.
#[derive(Clone, Copy)]
pub enum State {
    Idle,
    Ready,
    Active(Session),
    Halt,
}
