use crate::span::{Span, Update};

// What a command asks.
#[derive(Clone, Copy, Debug, PartialEq, Eq)]
pub enum Order<'a> {
    // it does nothing, whatever it names
    Select,
    Read(Span),
    Update(Update<'a>),
}
