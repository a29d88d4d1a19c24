// The calls of an exchange in service.
ghost use Rattle.std.specs.Prelude.{◌≡◌, ◌<◌, ◌≤◌, length, OnOk};
ghost use Rattle.std.specs.Option.{ok_or};
ghost use Rattle.refusal.specs.declared.Refusal.TheVariants.{Misdialled};
ghost use Rattle.apdu.specs.Encode.{least_buffer};
ghost use Rattle.directory.specs.Contents.{contents};
ghost use Rattle.algorithm.specs.Meaning.{Meaning};
ghost use Rattle.exchange.specs.Calls.{user_check, dialled_check, challenge_check, asks};
ghost use Rattle.exchange.specs.Laws.{Earliest};
ghost use Rattle.exchange.specs.Outcome.{Unchanged, buffer_check};
ghost use Rattle.exchange.specs.Runs.{PlainInitiation, InitiationWithValues, VisitorStart, NetworkProof, Clock, called};
ghost use Rattle.exchange.specs.Bounds.{highest_reading, last_opening, most_dialogues};

use crate::dialogue::{Event, Step};
use crate::in_service::Exchange;
use crate::outcome::{Done, Outcome};
use crate::state::State;
use algorithm::Algorithm;
use apdu::{Apdu, Body, Invoke, LEAST_BUFFER, Request, WtanParamArg, WtatParamArg};
use directory::Directory;
use entries::{Link, is_link};
use refusal::Refusal;
use values::{Challenge, User};
use wire::Provider;

// The buffer that is lent has room for every APDU.
pub(crate) fn check_buffer(out: &[u8]) -> Result<(), Refusal>
    ensures value { result ≡ buffer_check (length out.now) }
    ensures passed { OnOk result (least_buffer ≤ length out.now) }
{
    if out.len() < LEAST_BUFFER {
        return Err(Refusal::ShortSheet);
    }
    Ok(())
}

// The user of a request.
fn check_user(digits: &[u8]) -> Result<User, Refusal>
    ensures { result ≡ user_check digits.now }
{
    User::from_digits(digits).ok_or(Refusal::Misdialled)
}

// The user of an initiation, whose peer has to be a link.
fn check_dialled(digits: &[u8], peer: u8, links: &Directory<'_, Link>) -> Result<User, Refusal>
    ensures { result ≡ dialled_check digits.now peer (contents links.now) }
{
    let user = check_user(digits)?;
    if !is_link(links, peer) {
        return Err(Refusal::Misdialled);
    }
    Ok(user)
}

// A terminal's challenge.
fn check_challenge(challenge: &[u8]) -> Result<Challenge, Refusal>
    ensures { result ≡ challenge_check challenge.now }
{
    Challenge::from_bytes(challenge).ok_or(Refusal::Misdialled)
}

impl Exchange {
    // Opens a dialogue under the next number, and its invoke goes to a peer.
    fn ask(&mut self, reading: u64, place: usize, state: State, peer: u8, invoke: Invoke) -> Outcome
        requires place { place < most_dialogues }
        requires time { reading ≤ highest_reading }
        requires number { self.old.next.0 ≤ last_opening }
        ensures { (result, self.new) ≡ asks self.old reading place state peer invoke }
    {
        let id = self.service.next.invoke_id();
        self.open_dialogue(reading, place, state);
        Outcome::Send {
            peer,
            apdu: Apdu {
                id,
                body: Body::Invoke(invoke),
            },
        }
    }

    /// Asks a peer to authenticate a user: authWtmUser goes to it without a unit. `reading` is in milliseconds; `digits` are
    /// the 1 to 15 ASCII digits of the user; `out` has at least 64 bytes, and the APDU sent stands at its front.
    ///
    /// Refused with 1, 2, 3; with 4 where the digits write no user or the peer is no link; with 8 where 32 dialogues are
    /// open; with 9 past number 60,000. A refused call changes nothing.
    pub fn plain_initiation(
        &mut self,
        reading: u64,
        digits: &[u8],
        peer: u8,
        links: &Directory<'_, Link>,
        out: &mut [u8],
    ) -> Result<Done, Refusal>
        ensures value { (m : Meaning) →
            record { result = result; service = self.new; buffer = out.new }
            ≡ called m self.old
            (PlainInitiation reading digits.now peer (contents links.now) out.old) }
        ensures unchanged { Unchanged result self.old self.new out.old out.new }
    {
        check_buffer(out)?;
        self.service.check_ready(reading)?;
        let user = check_dialled(digits, peer, links)?;
        let place = self.service.check_room()?;
        let asked = self.service.next.asking(peer);
        let state = State::Initiating { asked };
        let request = Request::AuthWtmUser(None);
        let outcome = self.ask(reading, place, state, peer, Invoke { user, request });
        Ok(outcome.write(out))
    }

    /// Asks the server for a unit, by wtatParamEnq; once it has come, authWtmUser brings it to the peer. What is given, and
    /// what is refused, is as in a plain initiation.
    pub fn initiation_with_values(
        &mut self,
        reading: u64,
        digits: &[u8],
        peer: u8,
        links: &Directory<'_, Link>,
        out: &mut [u8],
    ) -> Result<Done, Refusal>
        ensures value { (m : Meaning) →
            record { result = result; service = self.new; buffer = out.new }
            ≡ called m self.old
            (InitiationWithValues reading digits.now peer (contents links.now) out.old) }
        ensures unchanged { Unchanged result self.old self.new out.old out.new }
    {
        check_buffer(out)?;
        self.service.check_ready(reading)?;
        let user = check_dialled(digits, peer, links)?;
        let place = self.service.check_room()?;
        let server = self.service.fit.server;
        let asked = self.service.next.asking(server);
        let state = State::FetchingForInitiation { asked, user, peer };
        let arg = WtatParamArg {
            computes: false,
            challenge: None,
        };
        let request = Request::WtatParam(Provider::Server, arg);
        let outcome = self.ask(reading, place, state, server, Invoke { user, request });
        Ok(outcome.write(out))
    }

    /// Begins to authenticate a user who is visiting: asks Home for a unit by getWtatParam, or for a session where this
    /// exchange can compute. What is given, and what is refused, is as in a plain initiation, but for the peer.
    pub fn visitor_start(
        &mut self,
        reading: u64,
        digits: &[u8],
        out: &mut [u8],
    ) -> Result<Done, Refusal>
        ensures value { (m : Meaning) →
            record { result = result; service = self.new; buffer = out.new }
            ≡ called m self.old (VisitorStart reading digits.now out.old) }
        ensures unchanged { Unchanged result self.old self.new out.old out.new }
    {
        check_buffer(out)?;
        self.service.check_ready(reading)?;
        let user = check_user(digits)?;
        let place = self.service.check_room()?;
        let home = self.service.fit.home;
        let computes = self.service.fit.can_compute;
        let asked = self.service.next.asking(home);
        let state = State::Requesting {
            asked,
            owed: None,
            computes,
        };
        let arg = WtatParamArg {
            computes,
            challenge: None,
        };
        let request = Request::WtatParam(Provider::Home, arg);
        let outcome = self.ask(reading, place, state, home, Invoke { user, request });
        Ok(outcome.write(out))
    }

    /// Proves the network to a user's terminal: asks Home by getWtanParam, under the algorithm's number, for the response to
    /// the terminal's challenge of 8 bytes, or for a session where this exchange can compute.
    ///
    /// Refused as Visitor start is, and with 4 where the challenge has another size.
    pub fn network_proof<A: Algorithm>(
        &mut self,
        reading: u64,
        digits: &[u8],
        challenge: &[u8],
        algorithm: &A,
        out: &mut [u8],
    ) -> Result<Done, Refusal>
        ensures value { record { result = result; service = self.new; buffer = out.new }
            ≡ called (A.meaning algorithm.now) self.old
            (NetworkProof reading digits.now challenge.now out.old) }
        ensures unchanged { Unchanged result self.old self.new out.old out.new }
    {
        check_buffer(out)?;
        self.service.check_ready(reading)?;
        let user = check_user(digits)?;
        let challenge = check_challenge(challenge)?;
        let place = self.service.check_room()?;
        let home = self.service.fit.home;
        let computes = self.service.fit.can_compute;
        let asked = self.service.next.asking(home);
        let state = State::RequestingProof {
            asked,
            computes,
            challenge,
        };
        let arg = WtanParamArg {
            computes,
            challenge,
            algorithm: algorithm.number(),
        };
        let request = Request::WtanParam(Provider::Home, arg);
        let outcome = self.ask(reading, place, state, home, Invoke { user, request });
        Ok(outcome.write(out))
    }

    /// Closes the dialogue whose timer ends first, the lowest name on a tie, if it has ended by this reading: what it owes
    /// gets error temporarilyUnavailable, otherwise its failure is reported; the last reading stays. Else the reading becomes
    /// the last one. The algorithm is for the dialogue's step, which asks it nothing here.
    ///
    /// Refused with 1 and 2 alone.
    pub fn clock<A: Algorithm>(
        &mut self,
        reading: u64,
        algorithm: &mut A,
        out: &mut [u8],
    ) -> Result<Done, Refusal>
        ensures value { record { result = result; service = self.new; buffer = out.new }
            ≡ called (A.meaning algorithm.old) self.old (Clock reading out.old) }
        ensures unasked { algorithm.new ≡ algorithm.old }
        ensures unchanged { Unchanged result self.old self.new out.old out.new }
        ensures earliest { Earliest self.old reading result }
    {
        check_buffer(out)?;
        self.service.check_time(reading)?;
        let Some((place, mut dialogue)) = self.service.first_to_end(reading) else {
            self.service.last = reading;
            return Ok(Done::Quiet);
        };
        let next = self.service.next;
        let step = dialogue.step(&Event::Expiry, reading, next, &self.service.fit, algorithm);
        let Step::Closes(outcome) = step else {
            unreachable!()
        };
        self.set_place(self.service.last, next, place, None);
        Ok(outcome.write(out))
    }
}
