ghost use Rattle.std.specs.Prelude.{◌≡◌, ◌≤◌, length, IfOk};
ghost use Rattle.jis.specs.Commands.{by_code, command_of, lent, lists_of, opened, req_of, told};

use crate::command::Command;
use crate::fault::{Access, Fault};
use crate::lists::services_taken;

// The command in a frame for the tag with this identifier, or the first rule that the frame breaks.
pub fn taken_apart<'a>(frame: &'a [u8], idm: &[u8]) -> Result<Command<'a>, Fault>
    ensures { told result ≡ command_of idm.now frame.now }
{
    let payload = payload_taken(frame)?;
    command_taken(payload, idm)
}

fn command_taken<'a>(payload: &'a [u8], idm: &[u8]) -> Result<Command<'a>, Fault>
    requires { 1 ≤ length payload.now }
    ensures { told result ≡ by_code idm.now payload.now }
{
    match payload[0] {
        0x00 => req_taken(payload),
        0x06 => lists_taken(Access::Read, payload, idm),
        0x08 => lists_taken(Access::Write, payload, idm),
        _ => Err(Fault::Code),
    }
}

// LEN counts itself and the payload, and the checksum runs over both.
fn payload_taken<'a>(frame: &'a [u8]) -> Result<&'a [u8], Fault>
    ensures value { lent result ≡ opened frame.now }
    ensures some { IfOk result (λ p. 1 ≤ length p.now) }
{
    let len = frame.first().copied().unwrap_or(0) as usize;
    if len < 2 || frame.len() != len + 2 {
        return Err(Fault::Length);
    }
    let (covered, sum) = frame.split_at(len);
    if sum != checksum::jis(covered).as_slice() {
        return Err(Fault::Checksum);
    }
    Ok(&frame[1..len])
}

fn req_taken<'a>(payload: &'a [u8]) -> Result<Command<'a>, Fault>
    ensures { told result ≡ req_of payload.now }
{
    let [_, s0, s1, request, slot] = *payload else {
        return Err(Fault::Shape);
    };
    Ok(Command::Req {
        system_code: [s0, s1],
        request,
        slot,
    })
}

fn lists_taken<'a>(access: Access, payload: &'a [u8], idm: &[u8]) -> Result<Command<'a>, Fault>
    ensures { told result ≡ lists_of idm.now access payload.now }
{
    if payload.len() < 10 {
        return Err(Fault::Shape);
    }
    if &payload[1..9] != idm {
        return Err(Fault::ForeignIdentifier);
    }
    services_taken(access, payload)
}
