ghost use Rattle.std.specs.Prelude.{◌≡◌, ◌++◌};
ghost use Rattle.buffer.specs.Held.{held};
ghost use Rattle.memory.specs.Memory.{bytes_from};
ghost use Rattle.command.specs.Orders as orders;
ghost use Rattle.command.specs.Orders.{asked_by, status_bytes};
ghost use Rattle.command.specs.declared.status.Status.TheVariants.{Normal};
ghost use Rattle.command.specs.Performed.{answer_to, memory_after};

use crate::answer::{Answer, with_data};
use crate::order::Order;
use crate::parsing::parse;
use crate::span::{Span, Update};
use crate::status::Status;
use memory::{Store, read_bytes, write_bytes};
use system::Protection;

// Performs a command on the store, and says what it answers.
pub fn perform<S: Store>(store: &mut S, protection: &Protection, command: &[u8]) -> Answer
    ensures answer { held result ≡ answer_to protection.now.bytes (S.blocks store.old) (asked_by command.now) }
    ensures memory { S.blocks store.new ≡ memory_after protection.now.bytes (S.blocks store.old) (asked_by command.now) }
{
    match parse(command) {
        Ok(Order::Select) => Answer::from(Status::Normal),
        Ok(Order::Read(span)) => read_binary(store, protection, span),
        Ok(Order::Update(update)) => Answer::from(update_binary(store, protection, update)),
        Err(status) => Answer::from(status),
    }
}

// The bytes of the span and 90 00, or 6F 00. Store and protection stay two parameters, here and below: a type that lends both would
// lend the store to be written, and a read only reads it.
fn read_binary<S: Store>(store: &S, protection: &Protection, span: Span) -> Answer
    ensures { held result ≡ answer_to protection.now.bytes (S.blocks store.now) (orders.read span.start.at span.count) }
{
    if span.any_block(|block| !protection.may_read(block)) {
        return Answer::from(Status::NotAllowed);
    }
    let mut bytes = [0; 251];
    let data = &mut bytes[0..span.count];
    read_bytes(store, span.start, data).unwrap();
    with_data(data, Status::Normal)
}

fn update_binary<S: Store>(store: &mut S, protection: &Protection, update: Update<'_>) -> Status
    ensures answer { status_bytes result ≡ answer_to protection.now.bytes (S.blocks store.old) (orders.update update.entry.span.start.at update.entry.data.now) }
    ensures memory { S.blocks store.new ≡ memory_after protection.now.bytes (S.blocks store.old) (orders.update update.entry.span.start.at update.entry.data.now) }
{
    if update.span.any_block(|block| !protection.may_write(block)) {
        return Status::NotAllowed;
    }
    write_bytes(store, update.span.start, update.data).unwrap();
    Status::Normal
}
