// The places for dialogues.
ghost use Rattle.std.specs.Prelude.{◌≡◌, ◌<◌, length, cond, Some, None, Ok, Err, IfSome, position, slice_index_or};
ghost use Rattle.std.specs.List.{list_any};
ghost use Rattle.std.specs.Option.{ForSome};
ghost use Rattle.refusal.specs.declared.Refusal.TheVariants.{Twice};
ghost use Rattle.exchange.specs.Bounds.{most_dialogues};
ghost use Rattle.exchange.specs.Table.{due, free_place, first_to_end, owes, awaits, awaits_reply, standing_at};

use crate::dialogue::Dialogue;
use crate::invokes::{OwnNumber, PeerInvokeId};
use crate::service::Service;
use refusal::Refusal;

impl Service {
    // Whether some timer ends at or before the reading.
    pub(crate) fn is_timer_due(&self, reading: u64) -> bool
        ensures { result ≡ due reading self.now.dialogues }
    {
        self.dialogues.iter().any(|slot| slot
            .as_ref()
            .is_some_and(|dialogue| dialogue.has_ended(reading)))
    }

    // The first place with no dialogue.
    pub(crate) fn free_place(&self) -> Option<usize>
        ensures value { result ≡ free_place self.now.dialogues }
        ensures within { IfSome result (λ i. i < length self.now.dialogues) }
    {
        self.dialogues.iter().position(|slot| slot.is_none())
    }

    // Of the dialogues whose timer ends at or before the reading, the one whose timer ends first, the lowest name on a tie, and
    // its place: one loop over the places, which keeps the first to end so far.
    pub(crate) fn first_to_end(&self, reading: u64) -> Option<(usize, Dialogue)>
        requires places { length self.now.dialogues ≡ most_dialogues }
        ensures value { result ≡ first_to_end reading self.now.dialogues }
        ensures within { IfSome result (λ p. p.0 < length self.now.dialogues) }
    {
        let mut best: Option<(usize, Dialogue)> = None;
        for (place, slot) in self.dialogues.iter().enumerate() {
            if let Some(dialogue) = slot
                && dialogue.ends_first(reading, &best)
            {
                best = Some((place, *dialogue));
            }
        }
        best
    }

    // An invoke that a peer is still owed is not taken again.
    pub(crate) fn check_once(&self, peer: u8, id: PeerInvokeId) -> Result<(), Refusal>
        ensures { result ≡ cond (list_any (owes peer id.0) self.now.dialogues) (Err Twice) (Ok tt) }
    {
        if self.owes(peer, id) {
            return Err(Refusal::Twice);
        }
        Ok(())
    }

    // Whether a dialogue owes a peer the answer to an invoke.
    fn owes(&self, peer: u8, id: PeerInvokeId) -> bool
        ensures { result ≡ list_any (owes peer id.0) self.now.dialogues }
    {
        self.dialogues.iter().any(|slot| slot
            .as_ref()
            .is_some_and(|dialogue| dialogue.state.owes(peer, id)))
    }

    // What stands at a place, and the place.
    pub(crate) fn standing_at(&self, place: Option<usize>) -> Option<(usize, Dialogue)>
        requires places { length self.now.dialogues ≡ most_dialogues }
        requires within { IfSome place (λ i. i < length self.now.dialogues) }
        ensures value { result ≡ standing_at self.now.dialogues place }
        ensures within { IfSome result (λ p. p.0 < length self.now.dialogues) }
        ensures stands { ForSome result
            (λ p. slice_index_or self.now.dialogues p.0 None ≡ Some p.1) }
    {
        let place = place?;
        let dialogue = self.dialogues[place]?;
        Some((place, dialogue))
    }

    // The place of the dialogue that awaits a peer's answer to an invoke.
    pub(crate) fn place_awaiting(&self, peer: u8, id: OwnNumber) -> Option<usize>
        ensures value { result ≡ position (awaits peer id.0) self.now.dialogues }
        ensures within { IfSome result (λ i. i < length self.now.dialogues) }
    {
        self.dialogues.iter().position(|slot| slot
            .as_ref()
            .is_some_and(|dialogue| dialogue.state.awaits(peer, id)))
    }

    // The place of the dialogue with a name whose terminal is to reply.
    pub(crate) fn place_at_terminal(&self, name: OwnNumber) -> Option<usize>
        ensures value { result ≡ position (awaits_reply name) self.now.dialogues }
        ensures within { IfSome result (λ i. i < length self.now.dialogues) }
    {
        self.dialogues.iter().position(|slot| slot
            .as_ref()
            .is_some_and(|dialogue| dialogue.awaits_reply(name)))
    }
}
