ghost use Rattle.std.specs.Prelude.{◌≡◌, ◌≤◌, [], ◌∷◌, length, nat_lt};
ghost use Rattle.std.specs.Option.{option_map};
ghost use Rattle.buffer.specs.Held.{held};
ghost use Rattle.session.specs.Chains.{picked};
ghost use Rattle.session.specs.Model.{ack_pcb, ack_reply, after_ack, after_answer, after_chained, inf_size, i_pcb, joined_to, last_body, nak_reply, next_sent, same_number, started, toggled};
ghost use Rattle.session.specs.View.{last_of, model, rest_of};

use crate::chain::Chain;
use crate::sending::Sending;
use crate::state::{Last, Session};
use command::Answer;
use reply::Body;
use type_b::FrameSize;

// The PCB of R(ACK).
fn ack_pcb(number: bool) -> u8
    ensures { result ≡ ack_pcb number }
{
    if number { 0xA3 } else { 0xA2 }
}

// The PCB of an I-block.
fn i_pcb(number: bool, chained: bool) -> u8
    ensures { result ≡ i_pcb number chained }
{
    match (chained, number) {
        (true, true) => 0x13,
        (true, false) => 0x12,
        (false, true) => 0x03,
        (false, false) => 0x02,
    }
}

impl Session {
    // As ATTRIB leaves it.
    pub fn new(size: FrameSize) -> Session
        ensures { model result ≡ started size }
    {
        Session {
            size,
            number: true,
            chain: Chain::new(),
            last: None,
        }
    }

    // Takes a chained I-block, which R(ACK) answers.
    pub fn take_chained(&mut self, inf: &[u8]) -> Body
        ensures session { model self.new ≡ after_chained (model self.old) inf.now }
        ensures body { held result ≡ last_body (after_chained (model self.old) inf.now) }
    {
        self.chain.add(inf);
        self.set_last(Last::Acknowledgement);
        self.last_body()
    }

    // Joins the INF of an unchained I-block to the chain, if there is one.
    pub fn join(&mut self, inf: &[u8])
        ensures { model self.new ≡ joined_to (model self.old) inf.now }
    {
        self.chain.join(inf);
    }

    // The command that the unchained I-block completes, after `join`: a part of the frame or of the chain; none where it is too long.
    pub fn command<'a>(&'a self, inf: &'a [u8]) -> Option<&'a [u8]>
        ensures { option_map (λ x. x.now) result ≡ picked (model self.now).chain inf.now }
    {
        self.chain.command(inf)
    }

    // Answers an unchained I-block: the first piece goes out.
    pub fn answer(&mut self, answer: Answer) -> Body
        ensures session { model self.new ≡ after_answer (model self.old) (held answer) }
        ensures body { held result ≡ last_body (after_answer (model self.old) (held answer)) }
    {
        let first = Sending::new(answer).next(self.inf_size());
        self.chain = Chain::new();
        self.set_last(Last::Piece(first));
        self.last_body()
    }

    // Takes R(ACK): with the tag's number it asks for the last block again, with the other one for the next piece.
    pub fn take_ack(&mut self, number: bool) -> Body
        ensures session { model self.new ≡ after_ack (model self.old) number }
        ensures body { held result ≡ ack_reply (model self.old) number }
    {
        if self.has_number(number) || self.next_piece() {
            self.last_body()
        } else {
            Body::new()
        }
    }

    // Takes R(NAK): with the tag's number it asks for the last block again, with the other one for R(ACK).
    pub fn take_nak(&self, number: bool) -> Body
        ensures { held result ≡ nak_reply (model self.now) number }
    {
        if self.has_number(number) {
            self.last_body()
        } else {
            self.ack_body()
        }
    }

    // How long the INF of a piece is at most: the frame less PCB and checksum.
    fn inf_size(&self) -> usize
        ensures value { result ≡ inf_size self.now.size }
        ensures small { result ≤ 253 }
    {
        self.size.bytes() - 3
    }

    // Whether a block number is the tag's.
    fn has_number(&self, number: bool) -> bool
        ensures { result ≡ same_number number (model self.now).number }
    {
        number == self.number
    }

    // Makes the next piece the last one sent, and says whether one was left.
    fn next_piece(&mut self) -> bool
        ensures sent { result ≡ nat_lt 0 (length (model self.old).rest) }
        ensures session { model self.new ≡ next_sent (model self.old) }
    {
        let Some(Last::Piece(sending)) = self.last else {
            return false;
        };
        if !sending.goes_on() {
            return false;
        }
        self.set_last(Last::Piece(sending.next(self.inf_size())));
        true
    }

    // Makes a block the last one sent. Each is sent under the number that the last one did not have.
    fn set_last(&mut self, last: Last)
        ensures { model self.new ≡ toggled (model self.old) (model self.old).chain (last_of (Some last)) (rest_of (Some last)) }
    {
        self.number = !self.number;
        self.last = Some(last);
    }

    // R(ACK) under the tag's number.
    fn ack_body(&self) -> Body
        ensures { held result ≡ ack_pcb (model self.now).number ∷ [] }
    {
        Body::of(&[ack_pcb(self.number)])
    }

    // The last I-block, or R(ACK) to an I-block, if there was one.
    fn last_body(&self) -> Body
        ensures { held result ≡ last_body (model self.now) }
    {
        match self.last {
            None => Body::new(),
            Some(Last::Acknowledgement) => self.ack_body(),
            Some(Last::Piece(sending)) => {
                let mut body = Body::new();
                body.push(&[i_pcb(self.number, sending.goes_on())]);
                body.push(sending.piece());
                body
            }
        }
    }
}
