ghost use Rattle.std.specs.Prelude.{◌≡◌, ℕ, ◌+◌};
ghost use Rattle.buffer.specs.Held.{held};
ghost use Rattle.link.specs.declared.delivery.Delivery.{Delivery};
ghost use Rattle.link.specs.declared.delivery.Delivery.TheVariants.{Complete};
ghost use Rattle.links.specs.Plans.{planned};

use crate::plan::Plan;
use link::Delivery;

// What becomes of exchanges, one after the other. `may` tells beforehand of the exchange `k` after the next.
pub trait Losses: Drop {
    ghost may: { Self → ℕ → Delivery → Type 0 };

    fn next(&mut self) -> Delivery
        ensures now { may self.old 0 result }
        ensures later { (k : ℕ) (x : Delivery) → may self.new k x → may self.old (k + 1) x };
}

// Nothing is lost.
#[derive(Clone, Copy, Debug, PartialEq, Eq)]
pub struct NoLosses;

impl Losses for NoLosses {
    ghost may = { λ _ _ x. x ≡ Complete };

    fn next(&mut self) -> Delivery {
        Delivery::Complete
    }
}

// What a plan says is lost, a byte for each exchange.
#[derive(Clone, Copy)]
pub struct PlannedLosses {
    pub(crate) plan: Plan,
    // the number of the next exchange: past the plan's end none need be told from another
    pub(crate) at: usize,
}

impl Losses for PlannedLosses {
    ghost may = { λ l k x. x ≡ planned (held l.plan.bytes) (l.at + k) };

    fn next(&mut self) -> Delivery {
        let delivery = self.plan.delivery(self.at);
        self.at = self.at.saturating_add(1);
        delivery
    }
}
