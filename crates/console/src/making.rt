ghost use Rattle.console.specs.Devices.{Holds, Loaded, start_of};

use crate::device::Device;
use memory::Refusal;
use script::{Contents, StoreKind};
use stores::Load;
use system::example_image;
use tag::Tag;

impl Device {
    // A new tag, the field off.
    pub fn load(store: StoreKind, contents: &Contents) -> Result<Device, Refusal>
        ensures { Loaded store (start_of contents.now) result }
    {
        match store {
            StoreKind::Flat => Ok(Device::Flat(Tag::new(store_of(contents)?))),
            StoreKind::Log => Ok(Device::Log(Tag::new(store_of(contents)?))),
        }
    }
}

// A store that holds what a tag is to start with.
fn store_of<S: Load>(contents: &Contents) -> Result<S, Refusal>
    ensures { Holds S.blocks (start_of contents.now) result }
{
    match contents {
        Contents::Zeros => Ok(S::zeros()),
        Contents::Example => S::load(&example_image()),
        Contents::Image(image) => S::load(image.as_slice()),
    }
}
