ghost use Rattle.std.specs.Prelude.{◌≡◌, ◌≤◌, length};
ghost use Rattle.tag.specs.View.{view};
ghost use Rattle.link.specs.declared.delivery.Delivery.TheVariants.{Complete};
ghost use Rattle.links.specs.Wires.{Carried};

use link::Delivery;
use memory::Store;
use tag::Tag;

// Hands over the frame, and what comes back, as far as they are not lost.
pub fn carry<S: Store>(
    tag: &mut Tag<S>,
    frame: &[u8],
    reply: &mut [u8],
    delivery: Delivery,
) -> Option<usize>
    requires { 256 ≤ length reply.old }
    ensures { Carried (view S.blocks tag.old) frame.now delivery result reply.old reply.new (view S.blocks tag.new) }
{
    match delivery {
        Delivery::FrameLost => None,
        Delivery::ReplyLost => {
            hand_over(tag, frame, &mut [0; 256]);
            None
        }
        Delivery::Complete => hand_over(tag, frame, &mut reply[0..256]),
    }
}

// No reply of a tag is longer than its buffer has to be.
fn hand_over<S: Store>(tag: &mut Tag<S>, frame: &[u8], reply: &mut [u8]) -> Option<usize>
    requires { length reply.old ≡ 256 }
    ensures { Carried (view S.blocks tag.old) frame.now Complete result reply.old reply.new (view S.blocks tag.new) }
{
    tag.type_b_frame(frame, reply).unwrap()
}
