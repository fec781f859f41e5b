ghost use Rattle.std.specs.Prelude.{◌≡◌, ◌≤◌, ◌++◌, length};
ghost use Rattle.buffer.specs.Held.{held};
ghost use Rattle.command.specs.Orders.{status_bytes};

use crate::status::Status;
use buffer::Buffer;

// The whole answer to a command: at most 251 bytes of data, and a status.
pub type Answer = Buffer<253>;

// A status alone.
impl From<Status> for Answer {
    ghost from_gives = { λ status answer. held answer ≡ status_bytes status };

    fn from(status: Status) -> Answer {
        with_data(&[], status)
    }
}

pub(crate) fn with_data(data: &[u8], status: Status) -> Answer
    requires { length «data».now ≤ 251 }
    ensures { held result ≡ «data».now ++ status_bytes status }
{
    let mut answer = Answer::of(data);
    answer.push(&status.bytes());
    answer
}
