// Deliveries and replies.
ghost use Rattle.std.specs.Prelude.{◌≡◌, ◌<◌, ◌≤◌, length, None, IfSome, OnErr, slice_index_or};
ghost use Rattle.wire.specs.Codes.{problem_number};
ghost use Rattle.apdu.specs.declared.apdus.Body.TheVariants as body;
ghost use Rattle.directory.specs.Contents.{contents};
ghost use Rattle.exchange.specs.declared.handling.Handling.TheVariants.{Answer};
ghost use Rattle.exchange.specs.Able.{CanMove, BringsResult};
ghost use Rattle.exchange.specs.Asks.{DecidedAlike};
ghost use Rattle.exchange.specs.Calls.{response_check};
ghost use Rattle.exchange.specs.Deliver.{draw_check, moved, met, answer_sent, carried_out, taken, answer_taken, came, received};
ghost use Rattle.exchange.specs.Outcome.{leaving, Unchanged};
ghost use Rattle.exchange.specs.Runs.{Delivery, Reply, called};
ghost use Rattle.exchange.specs.Bounds.{highest_reading, most_dialogues};
ghost use Rattle.exchange.specs.Table.{to_take, standing_at};

use crate::calls::check_buffer;
use crate::dialogue::{Dialogue, Event, Step};
use crate::handling::Handling;
use crate::in_service::Exchange;
use crate::invokes::{Owed, OwnNumber, PeerInvokeId};
use crate::outcome::{Done, Outcome};
use crate::server::handle;
use crate::service::Service;
use algorithm::Algorithm;
use apdu::{Apdu, Body, Invoke, NoApdu};
use directory::Directory;
use entries::{Link, Subscriber, is_link};
use refusal::Refusal;
use values::{Draw, InvokeId, Response};
use wire::{ErrorCode, Problem};

// The draw for a delivery, whose peer has to be a link.
fn check_draw(links: &Directory<'_, Link>, peer: u8, draw: &[u8]) -> Result<Draw, Refusal>
    ensures { result ≡ draw_check (contents links.now) peer draw.now }
{
    if !is_link(links, peer) {
        return Err(Refusal::Misdialled);
    }
    Draw::from_bytes(draw).ok_or(Refusal::Misdialled)
}

// What a terminal replied.
fn check_response(response: &[u8]) -> Result<Response, Refusal>
    ensures { result ≡ response_check response.now }
{
    response.try_into().or(Err(Refusal::Misdialled))
}

impl Exchange {
    // Does what a step of the dialogue at a place comes to.
    fn make_move(
        &mut self,
        reading: u64,
        place: usize,
        step: Step,
        dialogue: Dialogue,
    ) -> Result<Outcome, Refusal>
        requires place { place < most_dialogues }
        requires able { CanMove (to_take (slice_index_or self.old.dialogues place None))
            (step, dialogue) }
        ensures value { (result, self.new)
            ≡ leaving self.old (moved self.old reading place (step, dialogue)) }
    {
        let next = self.service.next;
        let (next, slot, outcome) = match step {
            Step::Stray => return Err(Refusal::Stray),
            Step::GoesOn(outcome) => (next, Some(dialogue), outcome),
            Step::AsksAgain(outcome) => (next.following(), Some(dialogue), outcome),
            Step::Closes(outcome) => (next, None, outcome),
        };
        self.set_place(reading, next, place, slot);
        Ok(outcome)
    }

    // An event comes to the dialogue at the place that was found, if there is one.
    fn meet<A: Algorithm>(
        &mut self,
        reading: u64,
        event: &Event,
        place: Option<usize>,
        algorithm: &mut A,
    ) -> Result<Outcome, Refusal>
        requires time { reading ≤ highest_reading }
        requires within { IfSome place (λ i. i < length self.old.dialogues) }
        ensures value { (result, self.new)
            ≡ leaving self.old
            (met (A.meaning algorithm.old) self.old reading event.now
            (standing_at self.old.dialogues place)) }
        ensures same { A.meaning algorithm.new ≡ A.meaning algorithm.old }
        ensures refused { OnErr result (algorithm.new ≡ algorithm.old) }
        ensures unasked { ¬ (BringsResult event.now) → algorithm.new ≡ algorithm.old }
    {
        let Some((place, mut dialogue)) = self.service.standing_at(place) else {
            return Err(Refusal::Stray);
        };
        let next = self.service.next;
        let step = dialogue.step(event, reading, next, &self.service.fit, algorithm);
        self.make_move(reading, place, step, dialogue)
    }

    // An answer goes to the peer whose invoke it answers.
    fn send_answer(&mut self, reading: u64, peer: u8, id: PeerInvokeId, body: Body) -> Outcome
        ensures { (result, self.new) ≡ answer_sent self.old reading peer id.0 body }
    {
        self.service.last = reading;
        Outcome::Send {
            peer,
            apdu: Apdu { id: id.0, body },
        }
    }

    // Does what an invoke comes to; where a dialogue finds no place or number, the peer gets an error.
    fn carry_out(&mut self, reading: u64, peer: u8, id: PeerInvokeId, handling: Handling) -> Outcome
        requires time { reading ≤ highest_reading }
        ensures { (result, self.new) ≡ carried_out self.old reading peer id.0 handling }
    {
        let (state, outcome) = match handling {
            Handling::Answer(body) => return self.send_answer(reading, peer, id, body),
            Handling::Opens { state, outcome } => (state, outcome),
        };
        let Ok(place) = self.service.check_room() else {
            let body = Body::ReturnError(ErrorCode::TemporarilyUnavailable);
            return self.send_answer(reading, peer, id, body);
        };
        self.open_dialogue(reading, place, state);
        outcome
    }

    // An invoke of a peer that is not owed its answer yet.
    fn receive_invoke<A: Algorithm>(
        &mut self,
        reading: u64,
        peer: u8,
        id: InvokeId,
        draw: &Draw,
        invoke: &Invoke,
        subscribers: &Directory<'_, Subscriber>,
        algorithm: &mut A,
    ) -> Result<Outcome, Refusal>
        requires time { reading ≤ highest_reading }
        ensures value { (result, self.new)
            ≡ leaving self.old
            (came (A.meaning algorithm.old) self.old reading peer draw.now
            (contents subscribers.now) id (body.Invoke invoke.now)) }
        ensures same { A.meaning algorithm.new ≡ A.meaning algorithm.old }
        ensures refused { OnErr result (algorithm.new ≡ algorithm.old) }
    {
        self.service.check_once(peer, PeerInvokeId(id))?;
        let owed = Owed {
            peer,
            id: PeerInvokeId(id),
        };
        let subscriber = subscribers.get(invoke.user.key());
        let Service { fit, next, .. } = &self.service;
        let handling = handle(fit, *next, owed, draw, invoke, subscriber, algorithm);
        Ok(self.carry_out(reading, peer, PeerInvokeId(id), handling))
    }

    // An invoke that is due a reject, and not owed its answer yet.
    fn receive_wrong(
        &mut self,
        reading: u64,
        peer: u8,
        id: InvokeId,
        problem: Problem,
    ) -> Result<Outcome, Refusal>
        ensures { (result, self.new)
            ≡ leaving self.old
            (taken self.old reading peer id (Answer (body.Reject (problem_number problem)))) }
    {
        self.service.check_once(peer, PeerInvokeId(id))?;
        let body = Body::Reject(problem.into());
        Ok(self.send_answer(reading, peer, PeerInvokeId(id), body))
    }

    // An answer comes to the dialogue that awaits it.
    fn receive_answer<A: Algorithm>(
        &mut self,
        reading: u64,
        peer: u8,
        id: InvokeId,
        event: &Event,
        algorithm: &mut A,
    ) -> Result<Outcome, Refusal>
        requires time { reading ≤ highest_reading }
        ensures value { (result, self.new)
            ≡ leaving self.old
            (answer_taken (A.meaning algorithm.old) self.old reading peer id event.now) }
        ensures same { A.meaning algorithm.new ≡ A.meaning algorithm.old }
        ensures refused { OnErr result (algorithm.new ≡ algorithm.old) }
    {
        let place = self.service.place_awaiting(peer, OwnNumber(id.number()));
        self.meet(reading, event, place, algorithm)
    }

    // What the bytes are read as.
    fn receive<A: Algorithm>(
        &mut self,
        reading: u64,
        peer: u8,
        draw: &Draw,
        read: &Result<Apdu, NoApdu>,
        subscribers: &Directory<'_, Subscriber>,
        algorithm: &mut A,
    ) -> Result<Outcome, Refusal>
        requires time { reading ≤ highest_reading }
        ensures value { (result, self.new)
            ≡ leaving self.old
            (received (A.meaning algorithm.old) self.old reading peer draw.now
            (contents subscribers.now) read.now) }
        ensures same { A.meaning algorithm.new ≡ A.meaning algorithm.old }
        ensures refused { OnErr result (algorithm.new ≡ algorithm.old) }
    {
        let Apdu { id, body } = match read {
            Ok(apdu) => apdu,
            Err(NoApdu::RejectDue { id, problem }) => {
                return self.receive_wrong(reading, peer, *id, *problem);
            }
            Err(NoApdu::Garbled) => return Err(Refusal::Garbled),
        };
        match body {
            Body::Invoke(invoke) => {
                self.receive_invoke(reading, peer, *id, draw, invoke, subscribers, algorithm)
            }
            Body::ReturnResult(result) => {
                let event = Event::Result(*result, draw.challenge());
                self.receive_answer(reading, peer, *id, &event, algorithm)
            }
            Body::ReturnError(error) => {
                self.receive_answer(reading, peer, *id, &Event::Error(*error), algorithm)
            }
            Body::Reject(problem) => {
                self.receive_answer(reading, peer, *id, &Event::Reject(*problem), algorithm)
            }
        }
    }

    /// Takes what a peer sent. `draw` has 16 bytes, 8 for a challenge and 8 for a parameter, and is to be drawn afresh by the
    /// host for each delivery; `bytes` may be any; `out` has at least 64 bytes, and an APDU sent stands at its front.
    ///
    /// Refused with 1, 2, 3; with 4 where the peer is no link or the draw has another size; with 5 where the bytes are neither
    /// an APDU nor due a reject; with 6 where nothing awaits the answer; with 7 where the invoke's peer and id are still owed.
    /// A refused call changes nothing, and asks the algorithm nothing. Of the algorithm, what is decided rests on its number and
    /// on its answers to the questions that the call asks, and on nothing else.
    #[tactic(auto, using(crate::proofs::AsksLemmas::decided_alike))]
    pub fn deliver<A: Algorithm>(
        &mut self,
        reading: u64,
        peer: u8,
        draw: &[u8],
        bytes: &[u8],
        links: &Directory<'_, Link>,
        subscribers: &Directory<'_, Subscriber>,
        algorithm: &mut A,
        out: &mut [u8],
    ) -> Result<Done, Refusal>
        ensures value { record { result = result; service = self.new; buffer = out.new }
            ≡ called (A.meaning algorithm.old) self.old
            (Delivery reading peer draw.now bytes.now (contents links.now)
            (contents subscribers.now) out.old) }
        ensures same { A.meaning algorithm.new ≡ A.meaning algorithm.old }
        ensures refused { OnErr result (algorithm.new ≡ algorithm.old) }
        ensures unchanged { Unchanged result self.old self.new out.old out.new }
        ensures alike { DecidedAlike }
    {
        check_buffer(out)?;
        self.service.check_ready(reading)?;
        let draw = check_draw(links, peer, draw)?;
        let read = apdu::read(bytes);
        let outcome = self.receive(reading, peer, &draw, &read, subscribers, algorithm)?;
        Ok(outcome.write(out))
    }

    /// Takes the response of 4 bytes with which a terminal replies to the challenge of the dialogue with this name. The peer
    /// that is owed the verdict gets it, otherwise it is reported. The algorithm is for the dialogue's step, which asks it
    /// nothing here.
    ///
    /// Refused with 1, 2, 3; with 4 where the response has another size; with 6 where no dialogue with that name is with the
    /// terminal. A refused call changes nothing.
    pub fn reply<A: Algorithm>(
        &mut self,
        reading: u64,
        name: OwnNumber,
        response: &[u8],
        algorithm: &mut A,
        out: &mut [u8],
    ) -> Result<Done, Refusal>
        ensures value { record { result = result; service = self.new; buffer = out.new }
            ≡ called (A.meaning algorithm.old) self.old (Reply reading name response.now out.old) }
        ensures unasked { algorithm.new ≡ algorithm.old }
        ensures unchanged { Unchanged result self.old self.new out.old out.new }
    {
        check_buffer(out)?;
        self.service.check_ready(reading)?;
        let response = check_response(response)?;
        let place = self.service.place_at_terminal(name);
        let outcome = self.meet(reading, &Event::Reply(response), place, algorithm)?;
        Ok(outcome.write(out))
    }
}
