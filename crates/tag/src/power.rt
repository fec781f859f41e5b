ghost use Rattle.tag.specs.History.{field_on, field_off};
ghost use Rattle.tag.specs.View.{Made, Called};

use crate::state::{Power, Tag};
use memory::{BlockNumber, Store};
use system::{Identity, Protection, SystemCopy};
use type_b_service::State;

impl<S: Store> Tag<S> {
    // A tag over the store, the field off.
    pub fn new(store: S) -> Tag<S>
        ensures { Made S.blocks store result }
    {
        Tag {
            store,
            power: None,
            performed: 0,
        }
    }

    // The field comes on: blocks 30 and 31 are copied, and the copy rules until the field goes off.
    pub fn field_on(&mut self)
        ensures { Called S.blocks self.old field_on self.new }
    {
        if self.power.is_none() {
            let identity = Identity::new(&self.store.read(BlockNumber::known(30)));
            let protection = Protection::new(&self.store.read(BlockNumber::known(31)));
            let copy = SystemCopy {
                identity,
                protection,
            };
            self.power = Some(Power {
                copy,
                state: State::Idle,
            });
        }
    }

    // The field goes off, and all that was held while it was on is gone.
    pub fn field_off(&mut self)
        ensures { Called S.blocks self.old field_off self.new }
    {
        self.power = None;
    }
}
