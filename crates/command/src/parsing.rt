ghost use Rattle.std.specs.Prelude.{◌≡◌, ◌≤◌, true, false, [], ◌∷◌};
ghost use Rattle.std.specs.Result.{MatchResult};
ghost use Rattle.command.specs.declared.status.Status.TheVariants.{WrongParameters};
ghost use Rattle.command.specs.Orders.{address, asked_by, in_user, read_of, select_of, update_of};
ghost use Rattle.command.specs.View.{asked};

use crate::order::Order;
use crate::span::{Span, Update};
use crate::status::Status;
use memory::Address;

// What a command asks. The first check that fails gives the status.
#[tactic(auto, unfolding(crate::specs::Orders::asked_by))]
pub fn parse(command: &[u8]) -> Result<Order<'_>, Status>
    ensures { asked result ≡ asked_by command.now }
{
    if command.len() > 256 {
        return Err(Status::WrongLength);
    }
    match command {
        [0x00, 0xA4, _, _, ..] => select(command),
        [0x00, 0xB0, _, _, ..] => read_binary(command),
        [0x00, 0xD6, _, _, ..] => update_binary(command),
        [0x00, _, _, _, ..] => Err(Status::WrongInstruction),
        [_, _, _, _, ..] => Err(Status::WrongClass),
        _ => Err(Status::WrongLength),
    }
}

// A4. It does nothing, whatever it names.
fn select(command: &[u8]) -> Result<Order<'_>, Status>
    ensures { asked result ≡ select_of command.now }
{
    match command {
        [_, _, (128..), ..] => Err(Status::WrongParameters),
        [_, _, _, _, lc @ 1..=16, rest @ ..]
            if rest.len() == *lc as usize || rest.len() == *lc as usize + 1 => Ok(Order::Select),
        _ => Err(Status::WrongLength),
    }
}

// B0.
fn read_binary(command: &[u8]) -> Result<Order<'_>, Status>
    ensures { asked result ≡ read_of command.now }
{
    match command {
        [_, _, p1, p2, le @ 1..=251] => Ok(Order::Read(span(*p1, *p2, *le)?)),
        _ => Err(Status::WrongLength),
    }
}

// D6.
fn update_binary(command: &[u8]) -> Result<Order<'_>, Status>
    ensures { asked result ≡ update_of command.now }
{
    match command {
        [_, _, p1, p2, lc @ 1..=251, data @ ..] if data.len() == *lc as usize => {
            Ok(Order::Update(Update {
                span: span(*p1, *p2, *lc)?,
                data,
            }))
        }
        _ => Err(Status::WrongLength),
    }
}

// The `count` bytes from the address on that P1 and P2 name, if they lie in user blocks. Where one of P1's upper four bits is set they do not.
fn span(p1: u8, p2: u8, count: u8) -> Result<Span, Status>
    requires some { 1 ≤ count }
    requires few { count ≤ 251 }
    ensures { let c = 0 ∷ 0 ∷ p1 ∷ p2 ∷ [] in
        MatchResult result
        (λ s. (in_user c count ≡ true) × (s.start.at ≡ address c) × (s.count ≡ count))
        (λ e. (in_user c count ≡ false) × (e ≡ WrongParameters)) }
{
    let start = Address::try_from(u16::from_be_bytes([p1, p2]))?;
    if start.value() + u16::from(count) > 432 {
        return Err(Status::WrongParameters);
    }
    Ok(Span {
        start,
        count: usize::from(count),
    })
}
