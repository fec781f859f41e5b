ghost use Rattle.std.specs.Prelude.{◌≡◌, []};
ghost use Rattle.std.specs.Option.{option_map};
ghost use Rattle.session.specs.Chains.{more, joined_last, picked, short};
ghost use Rattle.session.specs.View.{joined};

use crate::chain::Chain;
use buffer::Buffer;

impl Chain {
    pub(crate) fn new() -> Chain
        ensures { joined result ≡ short [] }
    {
        Chain {
            infs: Some(Buffer::new()),
        }
    }

    // Adds the INF of a chained I-block.
    pub(crate) fn add(&mut self, inf: &[u8])
        ensures { joined self.new ≡ more (joined self.old) inf.now }
    {
        if let Some(infs) = &mut self.infs {
            if infs.try_push(inf).is_err() {
                self.infs = None;
            }
        }
    }

    // Joins the INF of an unchained I-block to the INFs before it, if there are any: where there are none, the frame holds the command.
    pub(crate) fn join(&mut self, inf: &[u8])
        ensures { joined self.new ≡ joined_last (joined self.old) inf.now }
    {
        match &self.infs {
            Some(infs) if infs.is_empty() => {}
            _ => self.add(inf),
        }
    }

    // The completed command, after `join`: a part of the frame or of the chain; none where it is too long.
    pub(crate) fn command<'a>(&'a self, inf: &'a [u8]) -> Option<&'a [u8]>
        ensures { option_map (λ x. x.now) result ≡ picked (joined self.now) inf.now }
    {
        let infs = self.infs.as_ref()?;
        if infs.is_empty() {
            Some(inf)
        } else {
            Some(infs.as_slice())
        }
    }
}
