ghost use Rattle.std.specs.Prelude.{◌≡◌};
ghost use Rattle.buffer.specs.Held.{held};
ghost use Rattle.links.specs.Plans.{planned};
ghost use Rattle.links.specs.Drawings.{Drawn};

use buffer::Buffer;
use link::Delivery;

// Why a plan is refused: it has over 64 bytes.
#[derive(Clone, Copy, Debug, PartialEq, Eq)]
pub struct PlanTooLong;

// What a link loses: a byte for each exchange.
#[derive(Clone, Copy)]
pub struct Plan {
    pub(crate) bytes: Buffer<64>,
}

impl Plan {
    pub fn new(bytes: &[u8]) -> Result<Plan, PlanTooLong>
        ensures { Drawn bytes.now result }
    {
        let mut plan = Plan {
            bytes: Buffer::new(),
        };
        plan.bytes.try_push(bytes).map_err(|_| PlanTooLong)?;
        Ok(plan)
    }

    // What becomes of the exchange with this number, the first being 0.
    pub fn delivery(&self, exchange: usize) -> Delivery
        ensures { result ≡ planned (held self.now.bytes) exchange }
    {
        match self.bytes.as_slice().get(exchange) {
            Some(0x01) => Delivery::FrameLost,
            Some(0x02) => Delivery::ReplyLost,
            _ => Delivery::Complete,
        }
    }
}
