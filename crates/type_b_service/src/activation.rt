ghost use Rattle.std.specs.Prelude.{◌≡◌, ℕ, List, ◌∷◌, [], is_some};
ghost use Rattle.std.specs.Str.{bytes_eq};
ghost use Rattle.buffer.specs.Held.{held};
ghost use Rattle.system.specs.Identity.{pupi};
ghost use Rattle.type_b_service.specs.Turns.{atqb, chosen, fits, if_own, in_ready, is_active, laid_down, listens, ordered, requested};
ghost use Rattle.type_b_service.specs.View.{Turned, phase_of};

use crate::state::State;
use reply::Body;
use session::Session;
use system::Identity;
use type_b::FrameSize;

// Whether an AFI fits the tag's own.
fn afi_fits(afi: u8, own: u8) -> bool
    ensures { result ≡ fits afi own }
{
    if afi == 0 {
        return true;
    }
    if afi % 16 == 0 {
        return afi / 16 == own / 16;
    }
    if afi / 16 == 0 {
        return afi % 16 == own % 16;
    }
    afi == own
}

// Whether 05 is answered in a state.
fn is_listening(state: &State, param: u8) -> bool
    ensures { result ≡ listens (phase_of state.now) param }
{
    match state {
        State::Idle => true,
        State::Ready => true,
        State::Halt => param / 8 % 2 == 1,
        State::Active(_) => false,
    }
}

fn is_own(identity: &Identity, name: &[u8]) -> bool
    ensures { result ≡ bytes_eq name.now (pupi identity.now.bytes) }
{
    name == identity.pupi().as_slice()
}

fn atqb(identity: &Identity) -> Body
    ensures { held result ≡ atqb identity.now.bytes }
{
    let mut body = Body::new();
    body.push(&[0x50]);
    body.push(identity.pupi());
    body.push(&[0x00, 0x00, 0x00, 0x00, 0x91, 0x81, 16 * identity.fwi()]);
    body
}

impl State {
    pub fn is_active(&self) -> bool
        ensures value { result ≡ is_active (phase_of self.now) }
        ensures completes { (inf : List ℕ) → result ≡ is_some (ordered (phase_of self.now) inf) }
    {
        match self {
            State::Active(_) => true,
            _ => false,
        }
    }

    // 05.
    pub(crate) fn request(&mut self, identity: &Identity, afi: u8, param: u8) -> Body
        ensures { Turned (requested identity.now.bytes afi param (phase_of self.old)) self.new (held result) }
    {
        if is_listening(self, param) && afi_fits(afi, identity.afi()) {
            *self = State::Ready;
            atqb(identity)
        } else {
            Body::new()
        }
    }

    // What READY alone answers, and only to the tag's own name.
    fn named(&mut self, identity: &Identity, name: &[u8], next: State, answer: u8) -> Body
        ensures { Turned (in_ready (if_own identity.now.bytes name.now (record { phase = phase_of next; said = answer ∷ [] })) (phase_of self.old)) self.new (held result) }
    {
        if matches!(self, State::Ready) && is_own(identity, name) {
            *self = next;
            Body::of(&[answer])
        } else {
            Body::new()
        }
    }

    // 1D: the session begins.
    pub(crate) fn attrib(&mut self, identity: &Identity, pupi: &[u8], size: FrameSize) -> Body
        ensures { Turned (in_ready (chosen identity.now.bytes pupi.now size) (phase_of self.old)) self.new (held result) }
    {
        self.named(identity, pupi, State::Active(Session::new(size)), 0x10)
    }

    // 50.
    pub(crate) fn halt(&mut self, identity: &Identity, pupi: &[u8]) -> Body
        ensures { Turned (in_ready (laid_down identity.now.bytes pupi.now) (phase_of self.old)) self.new (held result) }
    {
        self.named(identity, pupi, State::Halt, 0x00)
    }
}
