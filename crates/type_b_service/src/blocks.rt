ghost use Rattle.std.specs.Prelude.{◌≡◌, true, false, []};
ghost use Rattle.buffer.specs.Held.{held};
ghost use Rattle.type_b.specs.Frames.{ack, deselect, information, nak};
ghost use Rattle.command.specs.Performed.{answer_to, memory_after};
ghost use Rattle.session.specs.Chains.{picked_order};
ghost use Rattle.session.specs.View.{model};
ghost use Rattle.type_b_service.specs.Turns.{effect, ordered, turn};
ghost use Rattle.type_b_service.specs.View.{Turned, phase_of};

use crate::state::State;
use command::{Answer, Status, perform};
use memory::Store;
use reply::Body;
use session::Session;
use system::Protection;

// Performs the command that an unchained I-block completes: a part of the frame, or of the chain.
fn answer_to<'a, S: Store>(
    store: &mut S,
    protection: &Protection,
    session: &'a Session,
    inf: &'a [u8],
) -> Answer
    ensures answer { held result ≡ answer_to protection.now.bytes (S.blocks store.old) (picked_order (model session.now).chain inf.now) }
    ensures memory { S.blocks store.new ≡ memory_after protection.now.bytes (S.blocks store.old) (picked_order (model session.now).chain inf.now) }
{
    match session.command(inf) {
        Some(command) => perform(store, protection, command),
        None => Answer::from(Status::WrongLength),
    }
}

// Blocks are for a session, so outside ACTIVE they meet silence. Three methods are alike: one in their place that takes a closure would need a contract about that
// closure, which is longer than the three.
impl State {
    // C2: the session ends.
    pub(crate) fn deselect(&mut self) -> Body
        ensures { Turned (turn [] [] [] (phase_of self.old) deselect) self.new (held result) }
    {
        match self {
            State::Active(_) => {
                *self = State::Halt;
                Body::of(&[0xC2])
            }
            _ => Body::new(),
        }
    }

    // A chained I-block: a piece of a command.
    pub(crate) fn take_chained(&mut self, inf: &[u8]) -> Body
        ensures { Turned (turn [] [] [] (phase_of self.old) (information true inf.now)) self.new (held result) }
    {
        match self {
            State::Active(session) => session.take_chained(inf),
            _ => Body::new(),
        }
    }

    pub(crate) fn take_ack(&mut self, number: bool) -> Body
        ensures { Turned (turn [] [] [] (phase_of self.old) (ack number)) self.new (held result) }
    {
        match self {
            State::Active(session) => session.take_ack(number),
            _ => Body::new(),
        }
    }

    pub(crate) fn take_nak(&self, number: bool) -> Body
        ensures { Turned (turn [] [] [] (phase_of self.now) (nak number)) self.now (held result) }
    {
        match self {
            State::Active(session) => session.take_nak(number),
            _ => Body::new(),
        }
    }

    // An unchained I-block: the last piece of a command, which is performed.
    pub(crate) fn take_last<S: Store>(
        &mut self,
        store: &mut S,
        protection: &Protection,
        inf: &[u8],
    ) -> Body
        ensures turned { Turned (turn [] protection.now.bytes (S.blocks store.old) (phase_of self.old) (information false inf.now)) self.new (held result) }
        ensures memory { S.blocks store.new ≡ effect protection.now.bytes (S.blocks store.old) (ordered (phase_of self.old) inf.now) }
    {
        match self {
            State::Active(session) => {
                session.join(inf);
                let answer = answer_to(store, protection, session, inf);
                session.answer(answer)
            }
            _ => Body::new(),
        }
    }
}
