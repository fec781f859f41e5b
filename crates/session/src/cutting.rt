ghost use Rattle.std.specs.Prelude.{◌≡◌, ◌≤◌, length, take, drop, nat_lt};
ghost use Rattle.buffer.specs.Held.{held};
ghost use Rattle.session.specs.View.{goes_on, left, part};

use crate::sending::Sending;
use command::Answer;

impl Sending {
    // An answer of which nothing has gone out.
    pub(crate) fn new(answer: Answer) -> Sending
        ensures { left result ≡ held answer }
    {
        Sending {
            answer,
            from: 0,
            to: 0,
        }
    }

    // The same after one more piece of at most `room` bytes.
    pub(crate) fn next(self, room: usize) -> Sending
        requires { room ≤ 253 }
        ensures part { part result ≡ take room (left self) }
        ensures left { left result ≡ drop room (left self) }
        ensures more { goes_on result ≡ nat_lt room (length (left self)) }
    {
        let from = self.to;
        let to = (from + room).min(self.answer.len());
        Sending {
            answer: self.answer,
            from,
            to,
        }
    }

    // The piece last sent.
    pub(crate) fn piece<'a>(&'a self) -> &'a [u8]
        ensures piece { result.now ≡ part self.now }
        ensures short { length result.now ≤ 253 }
    {
        &self.answer.as_slice()[self.from..self.to]
    }

    // Whether more pieces follow it.
    pub(crate) fn goes_on(&self) -> bool
        ensures value { result ≡ goes_on self.now }
        ensures left { result ≡ nat_lt 0 (length (left self.now)) }
    {
        self.to < self.answer.len()
    }
}
