ghost use Rattle.std.specs.Prelude.{◌≡◌, ◌+◌, ◌≤◌, length};
ghost use Rattle.buffer.specs.Held.{held};
ghost use Rattle.reply.specs.Frames.{jis_frame, type_b_frame};
ghost use Rattle.reply.specs.Sent.{over, sent};

use buffer::Buffer;

// What a reply of JIS X 6319-4 has between LEN and checksum: at the most 15 blocks and 12 bytes before them.
// Where nothing is answered, payload and body are empty: an `Option` around them would say it a second time, and each service would have to promise that what it
// gives is not empty.
pub type Payload = Buffer<252>;

// What a Type B frame has before its checksum.
pub type Body = Buffer<254>;

// A whole frame.
pub type Reply = Buffer<256>;

// LEN counts itself and the payload, and the checksum runs over both.
pub fn seal_jis<const N: usize>(payload: &Buffer<N>) -> Reply
    requires some { 1 ≤ length (held payload.now) }
    requires room { length (held payload.now) ≤ 253 }
    ensures items { held result ≡ jis_frame (held payload.now) }
    ensures len { length (held result) ≡ length (held payload.now) + 3 }
{
    let mut frame = Reply::new();
    frame.push(&[payload.len() as u8 + 1]);
    frame.push(payload.as_slice());
    let sum = checksum::jis(frame.as_slice());
    frame.push(&sum);
    frame
}

pub fn seal_type_b<const N: usize>(body: &Buffer<N>) -> Reply
    requires { length (held body.now) ≤ 254 }
    ensures items { held result ≡ type_b_frame (held body.now) }
    ensures len { length (held result) ≡ length (held body.now) + 2 }
{
    let mut frame = Reply::new();
    frame.push(body.as_slice());
    let sum = checksum::type_b(body.as_slice());
    frame.push(&sum);
    frame
}

// Copies a reply to the front of the caller's buffer, and says how long it is: nothing for silence.
pub fn send(reply: &Reply, buffer: &mut [u8]) -> Option<usize>
    requires { 256 ≤ length buffer.old }
    ensures after { buffer.new ≡ over (held reply.now) buffer.old }
    ensures value { result ≡ sent (held reply.now) }
{
    let bytes = reply.as_slice();
    buffer[0..bytes.len()].copy_from_slice(bytes);
    if bytes.is_empty() {
        None
    } else {
        Some(bytes.len())
    }
}
