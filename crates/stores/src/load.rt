ghost use Rattle.std.specs.Prelude.{◌≡◌};
ghost use Rattle.memory.specs.Memory.{zeros};
ghost use Rattle.stores.specs.Images.{Loaded};

use memory::{Refusal, Store};

// A store that can be made: of zeros, or with an image of the whole memory in it.
pub trait Load: Store + Sized {
    fn zeros() -> Self
        ensures { Self.blocks result ≡ zeros };

    fn load(image: &[u8]) -> Result<Self, Refusal>
        ensures { Loaded Self.blocks image.now result };
}
