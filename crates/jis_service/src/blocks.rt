ghost use Rattle.std.specs.Prelude.{◌≡◌, ◌+◌, ◌*◌, ◌≤◌, ◌++◌, map, length};
ghost use Rattle.std.specs.List.{flat_map};
ghost use Rattle.buffer.specs.Held.{held};
ghost use Rattle.memory.specs.Memory.{block_at};
ghost use Rattle.jis.specs.Walk.{numbers_left};
ghost use Rattle.jis_service.specs.Service.{written_in};

use jis::{BlockWrite, Blocks};
use memory::Store;
use reply::Payload;

// Adds the bytes of each listed block to the payload.
pub(crate) fn push_blocks<S: Store>(store: &S, list: Blocks<'_>, payload: &mut Payload)
    requires { length (held payload.old) + 16 * length (numbers_left list) ≤ 252 }
    ensures items { held payload.new ≡ held payload.old ++ flat_map (λ block. block) (map (block_at (S.blocks store.now)) (numbers_left list.entry)) }
    ensures len { length (held payload.new) ≡ length (held payload.old) + 16 * length (numbers_left list.entry) }
{
    for b in list {
        let block = store.read(b);
        payload.push(&block);
    }
}

// Writes each listed block, in order, 16 bytes of the data each.
pub(crate) fn write_blocks<S: Store>(store: &mut S, write: BlockWrite<'_>)
    ensures { S.blocks store.new ≡ written_in (S.blocks store.old) (numbers_left write.entry.blocks) write.entry.data.now }
{
    let (data, _) = write.data.as_chunks();
    for (b, block) in write.blocks.zip(data) {
        store.write(b, block);
    }
}
