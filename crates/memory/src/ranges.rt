ghost use Rattle.std.specs.Prelude.{◌≡◌, ◌+◌, ◌≤◌, length};
ghost use Rattle.memory.specs.Memory.{memory_size, bytes_from, with_bytes};
ghost use Rattle.memory.specs.Ranges.{RangeRead, RangeWritten};

use crate::address::Address;
use crate::blocks::Store;
use crate::past_end::PastEnd;
use crate::pieces::Pieces;

// Fills the buffer with the bytes from an address on.
pub fn read_bytes<S: Store>(store: &S, start: Address, out: &mut [u8]) -> Result<(), PastEnd>
    ensures { RangeRead (S.blocks store.now) start.at out.old result out.new }
{
    start.check_room(out.len())?;
    fill_from(store, start, out);
    Ok(())
}

// Writes the data from an address on. The bytes of its first and last block that lie outside stay.
pub fn write_bytes<S: Store>(store: &mut S, start: Address, data: &[u8]) -> Result<(), PastEnd>
    ensures { RangeWritten (S.blocks store.old) start.at «data».now result (S.blocks store.new) }
{
    start.check_room(data.len())?;
    put_from(store, start, data);
    Ok(())
}

fn fill_from<S: Store>(store: &S, start: Address, out: &mut [u8])
    requires { start.at + length out.old ≤ memory_size }
    ensures { out.new ≡ bytes_from (S.blocks store.now) start.at (length out.old) }
{
    for piece in Pieces::new(start, out.len()) {
        let held = store.read(piece.block);
        out[piece.in_range].copy_from_slice(&held[piece.in_block]);
    }
}

fn put_from<S: Store>(store: &mut S, start: Address, data: &[u8])
    requires { start.at + length «data».now ≤ memory_size }
    ensures { S.blocks store.new ≡ with_bytes (S.blocks store.old) start.at «data».now }
{
    for piece in Pieces::new(start, data.len()) {
        let mut held = store.read(piece.block);
        held[piece.in_block].copy_from_slice(&data[piece.in_range]);
        store.write(piece.block, &held);
    }
}
