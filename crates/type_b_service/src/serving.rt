ghost use Rattle.std.specs.Prelude.{◌≡◌, is_some};
ghost use Rattle.buffer.specs.Held.{held};
ghost use Rattle.type_b.specs.Frames.{kind, kind_of};
ghost use Rattle.type_b_service.specs.Turns.{completed, effect, turn};
ghost use Rattle.type_b_service.specs.View.{Turned, phase_of};

use crate::state::{Served, State};
use memory::Store;
use reply::Body;
use system::SystemCopy;
use type_b::{Frame, taken_apart};

// Serves a frame: the body of the answer holds nothing where the frame meets silence.
pub fn serve<S: Store>(store: &mut S, copy: &SystemCopy, state: &mut State, frame: &[u8]) -> Served
    ensures turned { Turned (turn copy.now.identity.bytes copy.now.protection.bytes (S.blocks store.old) (phase_of state.old) (kind_of frame.now)) state.new (held result.body) }
    ensures performed { result.performed ≡ is_some (completed (phase_of state.old) (kind_of frame.now)) }
    ensures memory { S.blocks store.new ≡ effect copy.now.protection.bytes (S.blocks store.old) (completed (phase_of state.old) (kind_of frame.now)) }
{
    let taken = taken_apart(frame);
    Served {
        performed: completes(state, taken),
        body: by_kind(store, copy, state, taken),
    }
}

// Whether a frame completes a command.
fn completes(state: &State, frame: Option<Frame<'_>>) -> bool
    ensures { result ≡ is_some (completed (phase_of state.now) (kind frame.entry)) }
{
    match frame {
        Some(Frame::Information { chained, .. }) => !chained && state.is_active(),
        _ => false,
    }
}

// Store, copy and state stay three parameters, lent from three fields of a tag: most kinds need one or two of them.
fn by_kind<S: Store>(
    store: &mut S,
    copy: &SystemCopy,
    state: &mut State,
    frame: Option<Frame<'_>>,
) -> Body
    ensures turned { Turned (turn copy.now.identity.bytes copy.now.protection.bytes (S.blocks store.old) (phase_of state.old) (kind frame.entry)) state.new (held result) }
    ensures memory { S.blocks store.new ≡ effect copy.now.protection.bytes (S.blocks store.old) (completed (phase_of state.old) (kind frame.entry)) }
{
    match frame {
        None => Body::new(),
        Some(Frame::Request { afi, param }) => state.request(&copy.identity, afi, param),
        Some(Frame::Attrib { pupi, size }) => state.attrib(&copy.identity, pupi, size),
        Some(Frame::Halt { pupi }) => state.halt(&copy.identity, pupi),
        Some(Frame::Deselect) => state.deselect(),
        Some(Frame::Information { chained, inf }) => {
            if chained {
                state.take_chained(inf)
            } else {
                state.take_last(store, &copy.protection, inf)
            }
        }
        Some(Frame::Ack { number }) => state.take_ack(number),
        Some(Frame::Nak { number }) => state.take_nak(number),
    }
}
