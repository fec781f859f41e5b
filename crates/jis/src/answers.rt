ghost use Rattle.std.specs.Prelude.{◌≡◌, ◌≤◌, length};
ghost use Rattle.buffer.specs.Held.{held};
ghost use Rattle.jis.specs.Answers.{extra_of, flags_payload, req_payload};

use crate::fault::Status;
use reply::Payload;

// The answer to a READ or a WRITE, up to its flags. A READ that went well goes on with the number of blocks and their bytes.
// The code is any byte: an `Access` in its place would ask more of callers.
pub fn write_flags(answer_code: u8, idm: &[u8; 8], status: Status) -> Payload
    ensures items { held result ≡ flags_payload answer_code idm.now status }
    ensures len { length (held result) ≡ 11 }
{
    let mut payload = Payload::new();
    payload.push(&[answer_code]);
    payload.push(idm);
    payload.push(&status.flags());
    payload
}

// The answer to a REQ. The request code is any byte, of which two ask for something: an enum would say no more than `extra` does.
pub fn write_req_answer(idm: &[u8; 8], pmm: &[u8; 2], request: u8, system_code: &[u8; 2]) -> Payload
    ensures items { held result ≡ req_payload idm.now pmm.now request system_code.now }
    ensures len { (17 ≤ length (held result)) × (length (held result) ≤ 19) }
{
    let mut payload = Payload::new();
    payload.push(&[0x01]);
    payload.push(idm);
    payload.push(&[0xFF, 0xFF, 0x00, 0x00, 0x00]);
    payload.push(pmm);
    payload.push(&[0xFF]);
    payload.push(extra(request, system_code));
    payload
}

// What the request code asks for besides.
fn extra(request: u8, system_code: &[u8; 2]) -> &[u8]
    ensures value { result.now ≡ extra_of request system_code.now }
    ensures short { length result.now ≤ 2 }
{
    match request {
        0x01 => system_code,
        0x02 => &[0x00, 0x83],
        _ => &[],
    }
}
