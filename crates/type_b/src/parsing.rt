ghost use Rattle.std.specs.Prelude.{◌≡◌};
ghost use Rattle.type_b.specs.Frames.{attrib_body, bare_block, block, body_kind, halt_body, intact, kind, kind_of, request_body, suits};

use crate::frame::Frame;
use crate::size::FrameSize;

// What a frame asks: nothing if it is of no kind, or has a wrong length or checksum.
pub fn taken_apart(frame: &[u8]) -> Option<Frame<'_>>
    ensures { kind result ≡ kind_of frame.now }
{
    match frame {
        [first, rest @ .., _, _] if is_intact(frame) => body_taken(*first, rest),
        _ => None,
    }
}

// Whether a frame has 3 to 256 bytes, of which the last two are CRC_B over the rest.
pub fn is_intact(frame: &[u8]) -> bool
    ensures { result ≡ intact frame.now }
{
    (3..=256).contains(&frame.len())
        && frame
            .split_last_chunk()
            .is_some_and(|(body, sum)| *sum == checksum::type_b(body))
}

// `rest` is what stands between the first byte and the checksum.
fn body_taken(first: u8, rest: &[u8]) -> Option<Frame<'_>>
    ensures { kind result ≡ body_kind first rest.now }
{
    match first {
        0x05 => request(rest),
        0x1D => attrib(rest),
        0x50 => halt(rest),
        pcb => block_taken(pcb, rest),
    }
}

fn request(rest: &[u8]) -> Option<Frame<'_>>
    ensures { kind result ≡ request_body rest.now }
{
    match rest {
        [afi, param] => Some(Frame::Request {
            afi: *afi,
            param: *param,
        }),
        _ => None,
    }
}

fn attrib(rest: &[u8]) -> Option<Frame<'_>>
    ensures { kind result ≡ attrib_body rest.now }
{
    match rest {
        [_, _, _, _, _, param2, param3, param4] if is_suitable(*param2, *param3, *param4) => {
            let size = FrameSize::try_from(*param2 % 16).ok()?;
            Some(Frame::Attrib {
                pupi: &rest[..4],
                size,
            })
        }
        _ => None,
    }
}

// Whether Param2 to Param4 ask what the tag can do; the low half of Param2 is read apart.
fn is_suitable(param2: u8, param3: u8, param4: u8) -> bool
    ensures { result ≡ suits param2 param3 param4 }
{
    matches!(param2 / 16, 0 | 5) && param3 == 0x01 && param4 % 16 == 0
}

fn halt(rest: &[u8]) -> Option<Frame<'_>>
    ensures { kind result ≡ halt_body rest.now }
{
    (rest.len() == 4).then_some(Frame::Halt { pupi: rest })
}

// A block by its PCB, of which bit 0 is the block number.
fn block_taken(pcb: u8, rest: &[u8]) -> Option<Frame<'_>>
    ensures { kind result ≡ block pcb rest.now }
{
    match pcb / 2 {
        0x01 => Some(Frame::Information {
            chained: false,
            inf: rest,
        }),
        0x09 => Some(Frame::Information {
            chained: true,
            inf: rest,
        }),
        _ if rest.is_empty() => bare_block(pcb),
        _ => None,
    }
}

// A block with nothing between PCB and checksum: DESELECT or an R-block.
fn bare_block<'a>(pcb: u8) -> Option<Frame<'a>>
    ensures { kind result ≡ bare_block pcb }
{
    let number = pcb % 2 == 1;
    match pcb {
        0xC2 => Some(Frame::Deselect),
        0xA2 | 0xA3 => Some(Frame::Ack { number }),
        0xB2 | 0xB3 => Some(Frame::Nak { number }),
        _ => None,
    }
}
