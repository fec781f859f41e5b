ghost use Rattle.std.specs.Prelude.{◌≡◌, ◌≤◌, length, ◌==◌};
ghost use Rattle.buffer.specs.Held.{held};

use crate::buffer::Buffer;

impl<const N: usize> Buffer<N> {
    pub fn len(&self) -> usize
        ensures value { result ≡ length (held self.now) }
        ensures most { result ≤ N }
    {
        self.len
    }

    pub fn is_empty(&self) -> bool
        ensures { result ≡ (length (held self.now) == 0) }
    {
        self.as_slice().is_empty()
    }

    pub fn as_slice(&self) -> &[u8]
        ensures items { result.now ≡ held self.now }
        ensures most { length result.now ≤ N }
    {
        let all = &self.bytes[..];
        &all[0..self.len]
    }
}
