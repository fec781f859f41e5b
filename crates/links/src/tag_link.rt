ghost use Rattle.std.specs.Prelude.{◌≡◌};
ghost use Rattle.tag.specs.View.{view};
ghost use Rattle.links.specs.Wires.{state_of, unused};
ghost use Rattle.std.proofs.Common.{rules};

use crate::carrying::carry;
use crate::losses::{Losses, NoLosses, PlannedLosses};
use crate::plan::Plan;
use link::Link;
use memory::{Refusal, Store};
use system::Writable;
use tag::Tag;

// A link to a tag in hand, with its counts.
#[derive(Drop)]
pub struct TagLink<S: Store, L: Losses> {
    tag: Tag<S>,
    losses: L,
    exchanges: u64,
    unheard: u64,
}

// The link that loses nothing.
pub type Lossless<S> = TagLink<S, NoLosses>;

// The link that loses what its plan says.
pub type Planned<S> = TagLink<S, PlannedLosses>;

impl<S: Store> TagLink<S, NoLosses> {
    pub fn new(tag: Tag<S>) -> Lossless<S>
        ensures { state_of S.blocks result ≡ unused (view S.blocks tag) }
    {
        TagLink::with_losses(tag, NoLosses)
    }
}

impl<S: Store> TagLink<S, PlannedLosses> {
    pub fn new(tag: Tag<S>, plan: Plan) -> Planned<S>
        ensures state { state_of S.blocks result ≡ unused (view S.blocks tag) }
        ensures plan { result.losses.plan ≡ plan }
        ensures start { result.losses.at ≡ 0 }
    {
        TagLink::with_losses(tag, PlannedLosses { plan, at: 0 })
    }
}

impl<S: Store, L: Losses> TagLink<S, L> {
    // A link to the tag, nothing counted yet.
    fn with_losses(tag: Tag<S>, losses: L) -> TagLink<S, L>
        ensures kept { result.tag ≡ tag }
        ensures state { state_of S.blocks result ≡ unused (view S.blocks tag) }
        ensures losses { result.losses ≡ losses }
    {
        TagLink {
            tag,
            losses,
            exchanges: 0,
            unheard: 0,
        }
    }

    // The tag, in hand again as it stands.
    pub fn into_tag(self) -> Tag<S>
        ensures { result ≡ self.tag }
    {
        self.tag
    }
}

impl<S: Store, L: Losses> Link for TagLink<S, L> {
    ghost state = { λ l. state_of S.blocks l };

    ghost may = { λ l. L.may l.losses };

    ghost shaped = { Prim.search rules };

    fn exchange(&mut self, frame: &[u8], reply: &mut [u8]) -> Result<Option<usize>, Refusal> {
        if reply.len() < 256 {
            return Err(Refusal::ReplyBufferShort);
        }
        let heard = carry(&mut self.tag, frame, reply, self.losses.next());
        self.exchanges = self.exchanges.wrapping_add(1);
        self.unheard = self.unheard.wrapping_add(u64::from(heard.is_none()));
        Ok(heard)
    }

    fn field_on(&mut self) {
        self.tag.field_on();
    }

    fn field_off(&mut self) {
        self.tag.field_off();
    }

    fn bench_read(&self, block: u16, out: &mut [u8]) -> Result<(), Refusal> {
        self.tag.bench_read(block, out)
    }

    fn bench_write(&mut self, block: u16, bytes: &[u8]) -> Result<(), Refusal> {
        self.tag.bench_write(block, bytes)
    }

    fn bench_writable(&self) -> Writable {
        self.tag.bench_writable()
    }

    fn bench_performed(&self) -> u64 {
        self.tag.bench_performed()
    }
}
