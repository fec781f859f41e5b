ghost use Rattle.std.specs.Prelude.{◌≡◌, ◌+◌, ◌≤◌, [], ◌++◌, length};
ghost use Rattle.buffer.specs.Held.{held, Added};

use crate::buffer::Buffer;

// There is no room for all of the bytes.
#[derive(Clone, Copy, Debug, PartialEq, Eq)]
pub struct Full;

impl<const N: usize> Buffer<N> {
    pub fn new() -> Buffer<N>
        ensures { held result ≡ [] }
    {
        Buffer {
            bytes: [0; N],
            len: 0,
        }
    }

    // A buffer of these bytes.
    pub fn of(bytes: &[u8]) -> Buffer<N>
        requires { length bytes.now ≤ N }
        ensures { held result ≡ bytes.now }
    {
        let mut buffer = Buffer::new();
        buffer.push(bytes);
        buffer
    }

    // Adds bytes behind those that are held.
    pub fn push(&mut self, more: &[u8])
        requires { length (held self.old) + length more.now ≤ N }
        ensures items { held self.new ≡ held self.old ++ more.now }
        ensures len { length (held self.new) ≡ length (held self.old) + length more.now }
    {
        let end = self.len + more.len();
        let all = &mut self.bytes[..];
        all[self.len..end].copy_from_slice(more);
        self.len = end;
    }

    // The same where there is room for them, and else nothing is added.
    pub fn try_push(&mut self, more: &[u8]) -> Result<(), Full>
        ensures { Added N (held self.old) more.now result (held self.new) }
    {
        if more.len() > N - self.len {
            return Err(Full);
        }
        self.push(more);
        Ok(())
    }

    pub fn clear(&mut self)
        ensures { held self.new ≡ [] }
    {
        self.len = 0;
    }
}
