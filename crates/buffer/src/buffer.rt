ghost use Rattle.std.specs.Prelude.{◌≡◌, ◌≤◌, length};

// Room for N bytes, of which the first `len` are held. It is `Copy`, and so are the sessions, states, answers and plans that are made of it: with the library's
// vector of fixed capacity they could not be. Equality is not derived, since the bytes past `len` do not count.
#[derive(Clone, Copy)]
pub struct Buffer<const N: usize> {
    pub(crate) bytes: [u8; N],
    pub(crate) len: usize,
    ghost within: { len ≤ N },
    ghost full: { length bytes ≡ N },
}
