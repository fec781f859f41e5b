use buffer::Buffer;

// The INFs of the chained I-blocks so far; none where they have over 256 bytes, which no command has.
#[derive(Clone, Copy)]
pub struct Chain {
    pub(crate) infs: Option<Buffer<256>>,
}
