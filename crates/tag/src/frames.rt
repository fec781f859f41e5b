ghost use Rattle.std.specs.Prelude.{◌≡◌, ◌+◌, ◌%◌, ◌^◌, ◌<◌, ◌≤◌, length, MatchResult, if◌then◌else◌};
ghost use Rattle.memory.specs.declared.refusal.Refusal.TheVariants.{ReplyBufferShort};
ghost use Rattle.buffer.specs.Held.{held};
ghost use Rattle.tag.specs.History.{jis, type_b};
ghost use Rattle.tag.specs.Steps.{jis_memory, jis_payload, reply_room, serving};
ghost use Rattle.tag.specs.View.{Called, power_in};

use crate::state::Tag;
use memory::{Refusal, Store};
use reply::{Payload, seal_jis, seal_type_b, send};

impl<S: Store> Tag<S> {
    // A JIS frame comes in. The reply goes to the front of the buffer, and its length is answered, or none for silence.
    pub fn jis_frame(&mut self, frame: &[u8], reply: &mut [u8]) -> Result<Option<usize>, Refusal>
        ensures { Called S.blocks self.old (jis frame.now reply.old result reply.new) self.new }
    {
        check_room(reply)?;
        let payload = self.jis_payload(frame);
        if payload.is_empty() {
            return Ok(None);
        }
        Ok(send(&seal_jis(&payload), reply))
    }

    // What is answered, before anything goes to the caller.
    fn jis_payload(&mut self, frame: &[u8]) -> Payload
        ensures said { held result ≡ jis_payload (serving (power_in self.old.power)) (S.blocks self.old.store) frame.now }
        ensures memory { S.blocks self.new.store ≡ jis_memory (serving (power_in self.old.power)) (S.blocks self.old.store) frame.now }
        ensures power { self.new.power ≡ self.old.power }
        ensures performed { self.new.performed ≡ self.old.performed }
    {
        if let Some(power) = &self.power {
            if !power.state.is_active() {
                return jis_service::serve(&mut self.store, &power.copy, frame);
            }
        }
        Payload::new()
    }

    // A Type B frame comes in, likewise. (Not one generic call: the two share the check of the room, and nothing else.)
    pub fn type_b_frame(&mut self, frame: &[u8], reply: &mut [u8]) -> Result<Option<usize>, Refusal>
        ensures { Called S.blocks self.old (type_b frame.now reply.old result reply.new) self.new }
    {
        check_room(reply)?;
        let Some(power) = &mut self.power else {
            return Ok(None);
        };
        let served = type_b_service::serve(&mut self.store, &power.copy, &mut power.state, frame);
        self.performed = counted(self.performed, served.performed);
        if served.body.is_empty() {
            return Ok(None);
        }
        Ok(send(&seal_type_b(&served.body), reply))
    }
}

// A frame is refused before it is served, where the longest reply has no room.
fn check_room(reply: &[u8]) -> Result<(), Refusal>
    ensures { MatchResult result (λ _. reply_room ≤ length reply.now) (λ e. (length reply.now < reply_room) × (e ≡ ReplyBufferShort)) }
{
    if reply.len() < 256 {
        return Err(Refusal::ReplyBufferShort);
    }
    Ok(())
}

// The count of performed commands, in 64 bits.
fn counted(count: u64, performed: bool) -> u64
    ensures { result ≡ (if performed then (count + 1) % 2 ^ 64 else count) }
{
    count.wrapping_add(u64::from(performed))
}
