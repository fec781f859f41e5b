ghost use Rattle.std.specs.Prelude.{◌≡◌, option_map};
ghost use Rattle.buffer.specs.Held.{held};
ghost use Rattle.link.specs.Carried.{carried};
ghost use Rattle.exchange.specs.Asked.{Asked};

use link::Link;
use reply::{Body, seal_type_b};
use type_b::is_intact;

// Sends a body as a frame, and hears the body of the reply, if one comes with a right checksum.
pub fn ask<L: Link>(link: &mut L, body: &Body) -> Option<Body>
    ensures { Asked L.Link.state L.Link.may link.old (held body.now) (option_map held result) link.new }
{
    let mut reply = [0; 256];
    let arrived = link
        .exchange(seal_type_b(body).as_slice(), &mut reply)
        .ok()??;
    body_of(&reply[0..arrived])
}

// What a frame carries before its checksum, if that is right.
#[tactic(auto, unfolding(link::specs::Carried::carried))]
fn body_of(frame: &[u8]) -> Option<Body>
    ensures { option_map held result ≡ carried frame.now }
{
    if !is_intact(frame) {
        return None;
    }
    Some(Body::of(&frame[0..frame.len() - 2]))
}
