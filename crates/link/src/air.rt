ghost use Rattle.std.specs.Prelude.{ℕ};
ghost use Rattle.memory.specs.Memory.{Shaped};
ghost use Rattle.tag.specs.History.{bench_read, bench_write, bench_writable, bench_performed};
ghost use Rattle.tag.specs.Steps.{dropped, raised};
ghost use Rattle.link.specs.declared.delivery.Delivery.{Delivery};
ghost use Rattle.link.specs.Bench.{Benched, Looked};
ghost use Rattle.link.specs.Exchanges.{Changed, Exchanged, LinkState};

use memory::Refusal;
use system::Writable;

// A link to a tag. `state` is what it means, the tag behind it and the two counts; `may` is what it tells beforehand of the exchange `k` after the next, and a link that
// cannot tell allows everything. A link is lawful (a word of ours) when the law and the contracts are shown of it, and no reader may rely on more.
pub trait Link {
    ghost state: { Self → LinkState };

    ghost may: { Self → ℕ → Delivery → Type 0 };

    // Sends a Type B frame; a reply that comes is left at the front of the buffer.
    fn exchange(&mut self, frame: &[u8], reply: &mut [u8]) -> Result<Option<usize>, Refusal>
        ensures { Exchanged state may self.old frame.now result reply.old reply.new self.new };

    // Field changes always arrive.
    fn field_on(&mut self)
        ensures { Changed state may raised self.old self.new };

    fn field_off(&mut self)
        ensures { Changed state may dropped self.old self.new };

    // The bench reaches the tag at any time, past the link.
    fn bench_read(&self, block: u16, out: &mut [u8]) -> Result<(), Refusal>
        ensures { Looked (state self.now) (bench_read block out.old result out.new) };

    fn bench_write(&mut self, block: u16, bytes: &[u8]) -> Result<(), Refusal>
        ensures { Benched state may self.old (bench_write block bytes.now result) self.new };

    fn bench_writable(&self) -> Writable
        ensures { Looked (state self.now) (bench_writable result) };

    fn bench_performed(&self) -> u64
        ensures { Looked (state self.now) (bench_performed result) };

    ghost shaped: { (l : Self) → Shaped (state l).tag.memory };
}
