ghost use Rattle.std.specs.Prelude.{◌≡◌, ◌*◌, ◌≤◌, slice_index};
ghost use Rattle.jis.specs.Elements.{lawful, size, sound, width};

// The byte at a place, and 0 past the end.
fn byte_at(bytes: &[u8], at: usize) -> u8
    ensures { result ≡ slice_index bytes.now at }
{
    bytes.get(at).copied().unwrap_or(0)
}

// How many bytes the element has that begins with this one.
pub(crate) fn element_size(d0: u8) -> usize
    ensures value { result ≡ size d0 }
    ensures bound { result ≤ 3 }
{
    if d0 >= 128 { 2 } else { 3 }
}

// How many bytes the first `m` elements have.
// No `fold`: its closure would not know how far it has come, and so that the sum fits. An iterator of elements, which reads past the end, would be longer than the
// two loops.
#[tactic(auto, using(crate::proofs::Listing::width_more))]
pub(crate) fn list_width(bytes: &[u8], m: u8) -> usize
    ensures value { result ≡ width m bytes.now }
    ensures bound { result ≤ 3 * m }
{
    let mut at = 0;
    for _turn in 0..m {
        at += element_size(byte_at(bytes, at));
    }
    at
}

// Whether a frame may have such an element. The low four bits of its first byte are ignored, and only a long one has a third byte.
fn is_lawful(d0: u8, number: u8, d2: u8) -> bool
    ensures { result ≡ lawful d0 number d2 }
{
    d0 / 16 % 8 == 0 && (d0 >= 128 || d2 == 0) && number <= 26
}

// Whether each of the first `m` elements is lawful. A loop, as above; and bytes and count are no `Blocks` before this is known.
pub(crate) fn is_sound(bytes: &[u8], m: u8) -> bool
    ensures { result ≡ sound m bytes.now }
{
    let mut at = 0;
    for _turn in 0..m {
        let d0 = byte_at(bytes, at);
        if !is_lawful(d0, byte_at(bytes, at + 1), byte_at(bytes, at + 2)) {
            return false;
        }
        at += element_size(d0);
    }
    true
}
