ghost use Rattle.std.specs.Prelude.{◌≡◌};
ghost use Rattle.buffer.specs.Held.{held};
ghost use Rattle.system.specs.Identity.{system_code, idm};
ghost use Rattle.jis.specs.Faults.{answer_to};
ghost use Rattle.jis.specs.Walk.{numbers_left};
ghost use Rattle.jis_service.specs.Service.{addressed, fault_payload, read_for, req_for, write_for, written_for, reply_payload, memory_after};

use crate::blocks::{push_blocks, write_blocks};
use jis::{
    Access, BlockWrite, Blocks, Command, Fault, Status, taken_apart, write_flags, write_req_answer,
};
use memory::Store;
use reply::Payload;
use system::{Identity, SystemCopy};

// Serves a frame: the payload of the answer holds nothing where the frame meets silence.
pub fn serve<S: Store>(store: &mut S, copy: &SystemCopy, frame: &[u8]) -> Payload
    ensures said { held result ≡ reply_payload copy.now.identity.bytes copy.now.protection.bytes (S.blocks store.old) frame.now }
    ensures memory { S.blocks store.new ≡ memory_after copy.now.identity.bytes copy.now.protection.bytes (S.blocks store.old) frame.now }
{
    match taken_apart(frame, copy.identity.idm()) {
        Ok(
            Command::Req {
                system_code,
                request,
                slot: _,
            },
        ) => serve_req(&copy.identity, system_code, request),
        Ok(
            Command::Read {
                services: _,
                blocks,
            },
        ) => serve_read(store, copy, blocks),
        Ok(Command::Write(write)) => serve_write(store, copy, write),
        Err(fault) => serve_fault(&copy.identity, fault),
    }
}

fn is_addressed(code: [u8; 2], own: &[u8; 2]) -> bool
    ensures { result ≡ addressed code own.now }
{
    code == [0xFF, 0xFF] || code == [0xAA, 0xFF] && own[0] == 0xAA || code == *own
}

fn serve_req(identity: &Identity, code: [u8; 2], request: u8) -> Payload
    ensures { held result ≡ req_for identity.now.bytes code request }
{
    let own = identity.system_code();
    if is_addressed(code, own) {
        write_req_answer(identity.idm(), identity.pmm(), request, own)
    } else {
        Payload::new()
    }
}

// Store and copy stay two parameters: a READ only reads the store, and other commands need only one of the two.
fn serve_read<S: Store>(store: &S, copy: &SystemCopy, list: Blocks<'_>) -> Payload
    ensures { held result ≡ read_for copy.now.identity.bytes copy.now.protection.bytes (S.blocks store.now) (numbers_left list.entry) }
{
    let code = Access::Read.answer_code();
    let mut listed = list;
    if !listed.all(|b| copy.protection.may_read(b)) {
        return write_flags(code, copy.identity.idm(), Status::Protected);
    }
    let mut payload = write_flags(code, copy.identity.idm(), Status::Normal);
    let count = [list.len() as u8];
    payload.push(&count);
    push_blocks(store, list, &mut payload);
    payload
}

fn serve_write<S: Store>(store: &mut S, copy: &SystemCopy, write: BlockWrite<'_>) -> Payload
    ensures said { held result ≡ write_for copy.now.identity.bytes copy.now.protection.bytes (numbers_left write.entry.blocks) }
    ensures memory { S.blocks store.new ≡ written_for copy.now.protection.bytes (S.blocks store.old) (numbers_left write.entry.blocks) write.entry.data.now }
{
    let code = Access::Write.answer_code();
    let mut listed = write.blocks;
    if !listed.all(|b| copy.protection.may_write(b)) {
        return write_flags(code, copy.identity.idm(), Status::Protected);
    }
    write_blocks(store, write);
    write_flags(code, copy.identity.idm(), Status::Normal)
}

fn serve_fault(identity: &Identity, fault: Fault) -> Payload
    ensures { held result ≡ fault_payload (idm identity.now.bytes) (answer_to fault) }
{
    match fault.answer() {
        Some((access, status)) => write_flags(access.answer_code(), identity.idm(), status),
        None => Payload::new(),
    }
}
