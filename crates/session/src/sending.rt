ghost use Rattle.std.specs.Prelude.{◌≤◌, length};
ghost use Rattle.buffer.specs.Held.{held};

use command::Answer;

// An answer that goes out in pieces: the last one sent is from..to.
#[derive(Clone, Copy)]
pub struct Sending {
    pub(crate) answer: Answer,
    pub(crate) from: usize,
    pub(crate) to: usize,
    ghost ordered: { from ≤ to },
    ghost within: { to ≤ length (held answer) },
}
