// A dialogue and its step.
ghost use Rattle.std.specs.Prelude.{◌≡◌, ◌^◌, ◌≤◌, Some};
ghost use Rattle.exchange.specs.Table.{ends_by, ends_before, ends_first, awaits_reply, one_more};
ghost use Rattle.exchange.specs.declared.dialogue.Step.TheVariants.{Stray};
ghost use Rattle.exchange.specs.Able.{CanMove, BringsResult};
ghost use Rattle.exchange.specs.Bounds.{highest_reading};
ghost use Rattle.exchange.specs.State.{named_in};
ghost use Rattle.exchange.specs.Dialogue.{answer, invoked, authenticate, answer_or_report, verdict_on, reported, goes_on, challenged, stepped};

use crate::fit_out::FitOut;
use crate::invokes::{Asked, Owed, OwnNumber};
use crate::outcome::{Cause, Outcome, Report};
use crate::results::{is_proof_session, is_session};
use crate::state::State;
use algorithm::Algorithm;
use apdu::{Apdu, Body, Invoke, Request, ReturnResult, WtanParamRes, WtatInfo, WtatParamRes};
use values::{AuthUnit, Challenge, Response, User};
use wire::{ErrorCode, Provider, Verdict};

/// One authentication under way.
#[derive(Clone, Copy)]
pub struct Dialogue {
    /// The number under which it was opened, 1 to 60,000. It keeps it.
    pub name: OwnNumber,
    /// The reading at which it was opened, in milliseconds.
    pub opened: u64,
    /// The reading at which its timer ends, in milliseconds.
    pub ends: u64,
    /// What it awaits and what it owes.
    pub state: State,
}

#[derive(Clone, Copy)]
pub(crate) enum Event {
    // The result of our invoke, and the challenge that was drawn for it.
    Result(ReturnResult, Challenge),
    Error(ErrorCode),
    // With its problem.
    Reject(u8),
    // What the terminal replied to its challenge.
    Reply(Response),
    // The dialogue's timer has ended.
    Expiry,
}

// What a dialogue's step comes to.
#[derive(Clone, Copy)]
pub(crate) enum Step {
    // Nothing awaits the event, and the dialogue is as it was.
    Stray,
    // The dialogue goes on.
    GoesOn(Outcome),
    // The dialogue goes on, and has taken the next number for another invoke.
    AsksAgain(Outcome),
    Closes(Outcome),
}

impl Owed {
    // The answer to the peer that is owed it.
    fn answer(&self, body: Body) -> Outcome
        ensures { result ≡ answer self.now body }
    {
        Outcome::Send {
            peer: self.peer,
            apdu: Apdu {
                id: self.id.0,
                body,
            },
        }
    }
}

impl Asked {
    // An invoke of ours to the peer that is asked.
    pub(crate) fn invoke(&self, invoke: Invoke) -> Outcome
        requires { 1 ≤ self.now.id.0 }
        ensures { result ≡ invoked self.now invoke }
    {
        Outcome::Send {
            peer: self.peer,
            apdu: Apdu {
                id: self.id.invoke_id(),
                body: Body::Invoke(invoke),
            },
        }
    }

    // The invoke that asks a peer to authenticate a user, with a unit.
    fn authenticate(&self, user: User, unit: AuthUnit) -> Outcome
        requires { 1 ≤ self.now.id.0 }
        ensures { result ≡ authenticate self.now user unit }
    {
        let request = Request::AuthWtmUser(Some(unit));
        self.invoke(Invoke { user, request })
    }
}

// What is owed gets an answer, and where nothing is owed a report is made under the dialogue's name.
fn answer_or_report(owed: Option<Owed>, body: Body, name: OwnNumber, report: Report) -> Outcome
    ensures { result ≡ answer_or_report owed body name report }
{
    match owed {
        Some(owed) => owed.answer(body),
        None => Outcome::Report { name, report },
    }
}

// Whether a response is the expected one.
fn verdict_on(response: Response, expected: Response) -> Verdict
    ensures { result ≡ verdict_on response expected }
{
    if response == expected {
        Verdict::Correct
    } else {
        Verdict::Incorrect
    }
}

impl Dialogue {
    // Whether its timer ends at or before the reading.
    pub(crate) fn has_ended(&self, reading: u64) -> bool
        ensures { result ≡ ends_by reading (Some self.now) }
    {
        self.ends <= reading
    }

    // Whether its timer ends before the other's, or with it where it has the lower name.
    pub(crate) fn ends_before(&self, other: &Dialogue) -> bool
        ensures { result ≡ ends_before self.now other.now }
    {
        (self.ends, self.name) < (other.ends, other.name)
    }

    // Whether its timer has ended by the reading, and before that of the best so far.
    pub(crate) fn ends_first(&self, reading: u64, best: &Option<(usize, Dialogue)>) -> bool
        ensures { result ≡ ends_first reading self.now best.now }
    {
        self.has_ended(reading)
            && best
                .as_ref()
                .is_none_or(|(_, first)| self.ends_before(first))
    }

    // Whether its terminal is to reply under this name.
    pub(crate) fn awaits_reply(&self, name: OwnNumber) -> bool
        ensures { result ≡ awaits_reply name (Some self.now) }
    {
        self.state.is_at_terminal() && self.name == name
    }

    // A report under its name.
    fn report(&self, report: Report) -> Outcome
        ensures { result ≡ reported self.now report }
    {
        Outcome::Report {
            name: self.name,
            report,
        }
    }

    // Goes on in a state, whose timer starts.
    fn go_on(&mut self, state: State, reading: u64, fit: &FitOut)
        requires time { reading ≤ highest_reading }
        ensures { self.new ≡ goes_on fit.now reading self.old state }
    {
        self.ends = state.end(reading, fit);
        self.state = state;
    }

    // Goes on to the terminal, which is given the unit's challenge.
    fn go_on_to_terminal(
        &mut self,
        owed: Option<Owed>,
        unit: AuthUnit,
        reading: u64,
        fit: &FitOut,
    ) -> Step
        requires time { reading ≤ highest_reading }
        ensures { (result, self.new)
            ≡ challenged fit.now reading self.old owed unit.challenge unit.response }
    {
        let expected = unit.response;
        self.go_on(State::Executing { owed, expected }, reading, fit);
        Step::GoesOn(self.report(Report::Challenge(unit.challenge)))
    }

    // State and event together decide the step, in one `match`. `next` is the next number. The algorithm is asked only where a
    // session is taken, so that what the dialogue does not take asks it nothing.
    pub(crate) fn step<A: Algorithm>(
        &mut self,
        event: &Event,
        reading: u64,
        next: OwnNumber,
        fit: &FitOut,
        algorithm: &mut A,
    ) -> Step
        requires time { reading ≤ highest_reading }
        requires next { 1 ≤ next.0 }
        ensures able { CanMove (one_more (named_in self.old.state)) (result, self.new) }
        ensures value { (result, self.new)
            ≡ stepped (A.meaning algorithm.old) fit.now reading next self.old event.now }
        ensures same { A.meaning algorithm.new ≡ A.meaning algorithm.old }
        ensures stray { result ≡ Stray → algorithm.new ≡ algorithm.old }
        ensures unasked { ¬ (BringsResult event.now) → algorithm.new ≡ algorithm.old }
    {
        match (&self.state, event) {
            (
                State::FetchingForInitiation { user, peer, .. },
                Event::Result(
                    ReturnResult::WtatParam(
                        Provider::Server,
                        WtatParamRes {
                            info: WtatInfo::Unit(unit),
                            ..
                        },
                    ),
                    _,
                ),
            ) => {
                let (user, unit) = (*user, *unit);
                let asked = next.asking(*peer);
                self.go_on(State::Initiating { asked }, reading, fit);
                Step::AsksAgain(asked.authenticate(user, unit))
            }
            (State::Initiating { .. }, Event::Result(ReturnResult::AuthWtmUser(verdict), _)) => {
                Step::Closes(self.report(Report::Verdict(*verdict)))
            }
            (
                State::FetchingForVisitor { owed, computes, .. },
                Event::Result(ReturnResult::WtatParam(Provider::Server, result), _),
            ) if *computes || !is_session(&result.info) => {
                let returned = ReturnResult::WtatParam(Provider::Home, *result);
                Step::Closes(owed.answer(Body::ReturnResult(returned)))
            }
            (
                State::Requesting { owed, .. },
                Event::Result(
                    ReturnResult::WtatParam(
                        Provider::Home,
                        WtatParamRes {
                            info: WtatInfo::Unit(unit),
                            ..
                        },
                    ),
                    _,
                ),
            ) => {
                let (owed, unit) = (*owed, *unit);
                self.go_on_to_terminal(owed, unit, reading, fit)
            }
            (
                State::Requesting {
                    owed,
                    computes: true,
                    ..
                },
                Event::Result(
                    ReturnResult::WtatParam(
                        Provider::Home,
                        WtatParamRes {
                            algorithm: number,
                            info: WtatInfo::Session(session),
                        },
                    ),
                    drawn,
                ),
            ) if *number == algorithm.number() => {
                let owed = *owed;
                let response = algorithm.response(&session.key, drawn);
                let unit = AuthUnit {
                    challenge: *drawn,
                    response,
                };
                self.go_on_to_terminal(owed, unit, reading, fit)
            }
            (State::Executing { owed, expected }, Event::Reply(response)) => {
                let verdict = verdict_on(*response, *expected);
                let body = Body::ReturnResult(ReturnResult::AuthWtmUser(verdict));
                Step::Closes(answer_or_report(*owed, body, self.name, Report::Verdict(verdict)))
            }
            (
                State::RequestingProof { .. },
                Event::Result(
                    ReturnResult::WtanParam(Provider::Home, WtanParamRes::Response(response)),
                    _,
                ),
            ) => { Step::Closes(self.report(Report::Response(*response))) }
            (
                State::RequestingProof {
                    computes: true,
                    challenge,
                    ..
                },
                Event::Result(
                    ReturnResult::WtanParam(Provider::Home, WtanParamRes::Session(session)),
                    _,
                ),
            ) => {
                let response = algorithm.response(&session.key, challenge);
                Step::Closes(self.report(Report::Response(response)))
            }
            (
                State::FetchingProof { owed, computes, .. },
                Event::Result(ReturnResult::WtanParam(Provider::Server, result), _),
            ) if *computes || !is_proof_session(result) => {
                let returned = ReturnResult::WtanParam(Provider::Home, *result);
                Step::Closes(owed.answer(Body::ReturnResult(returned)))
            }
            (state, Event::Error(error)) if state.asked().is_some() => {
                Step::Closes(answer_or_report(
                    state.owed(),
                    Body::ReturnError(*error),
                    self.name,
                    Report::Failure(Cause::Error(*error)),
                ))
            }
            (state, Event::Reject(problem)) if state.asked().is_some() => {
                Step::Closes(answer_or_report(
                    state.owed(),
                    Body::ReturnError(ErrorCode::ParamNotAvailable),
                    self.name,
                    Report::Failure(Cause::Reject(*problem)),
                ))
            }
            (state, Event::Expiry) => Step::Closes(answer_or_report(
                state.owed(),
                Body::ReturnError(ErrorCode::TemporarilyUnavailable),
                self.name,
                Report::Failure(Cause::Expiry(state.timer())),
            )),
            _ => Step::Stray,
        }
    }
}
