ghost use Rattle.std.specs.Prelude.{◌≡◌, ◌*◌, ◌≤◌, length};
ghost use Rattle.jis.specs.Commands.{alike, blocks_of, data_width, most_blocks, most_services, services_of, told};

use crate::blocks::Blocks;
use crate::command::{BlockWrite, Command};
use crate::elements::{is_sound, list_width};
use crate::fault::{Access, Fault};

// The services of a READ or a WRITE, and how many blocks it lists.
pub(crate) fn services_taken<'a>(access: Access, payload: &'a [u8]) -> Result<Command<'a>, Fault>
    requires { 10 ≤ length payload.now }
    ensures { told result ≡ services_of access payload.now }
{
    let k = payload[9] as usize;
    if k < 1 || most_services(access) < k {
        return Err(Fault::ServiceCount(access));
    }
    let lists = &payload[10..];
    if lists.len() <= 2 * k {
        return Err(Fault::Truncated);
    }
    let (services, rest) = lists.split_at(2 * k);
    if !is_alike(services) {
        return Err(Fault::ServicesDiffer(access));
    }
    let m = rest[0];
    if m < 1 || most_blocks(access, k) < m {
        return Err(Fault::BlockCount(access));
    }
    blocks_taken(access, services, m, &rest[1..])
}

// The block list and the data, which are all that follows the number of blocks.
#[tactic(auto, using(crate::proofs::Listing::width_take))]
fn blocks_taken<'a>(
    access: Access,
    services: &'a [u8],
    m: u8,
    body: &'a [u8],
) -> Result<Command<'a>, Fault>
    requires { m ≤ 15 }
    ensures { told result ≡ blocks_of access services.now m body.now }
{
    let width = list_width(body, m);
    if width + data_width(access, m) != body.len() {
        return Err(Fault::ListEnd);
    }
    let (list, data) = body.split_at(width);
    if !is_sound(list, m) {
        return Err(Fault::BadElement(access));
    }
    let blocks = Blocks::new(list, usize::from(m));
    match access {
        Access::Read => Ok(Command::Read { services, blocks }),
        Access::Write => Ok(Command::Write(BlockWrite {
            services,
            blocks,
            data,
        })),
    }
}

fn most_services(access: Access) -> usize
    ensures { result ≡ most_services access }
{
    match access {
        Access::Read => 15,
        Access::Write => 11,
    }
}

fn most_blocks(access: Access, k: usize) -> u8
    ensures value { result ≡ most_blocks access k }
    ensures bound { result ≤ 15 }
{
    match access {
        Access::Read => 15,
        Access::Write if k <= 8 => 12,
        Access::Write => 11,
    }
}

fn data_width(access: Access, m: u8) -> usize
    ensures value { result ≡ data_width access m }
    ensures bound { result ≤ 16 * m }
{
    match access {
        Access::Read => 0,
        Access::Write => 16 * usize::from(m),
    }
}

// Whether all services are the same, both bytes of each: from the third byte on they repeat those before.
fn is_alike(services: &[u8]) -> bool
    requires { 2 ≤ length services.now }
    ensures { result ≡ alike services.now }
{
    services[2..] == services[..services.len() - 2]
}
