// What a peer's invoke comes to, by what it asks and by the user's subscriber, apart from the table and the buffer.
ghost use Rattle.std.specs.Prelude.{◌≡◌, ◌≤◌};
ghost use Rattle.apdu.specs.declared.apdus.Body.TheVariants as body;
ghost use Rattle.apdu.specs.declared.apdus.WtatInfo.TheVariants as info;
ghost use Rattle.apdu.specs.declared.apdus.WtanParamRes.TheVariants as proof;
ghost use Rattle.algorithm.specs.declared.direction.Direction.TheVariants as direction;
ghost use Rattle.exchange.specs.declared.handling.Handling.TheVariants.{Answer};
ghost use Rattle.exchange.specs.Server.{challenge_or, session_made, unit_made, opens, visited, handled};

use crate::fit_out::FitOut;
use crate::handling::Handling;
use crate::invokes::{Asked, Owed, OwnNumber};
use crate::outcome::{Outcome, Report};
use crate::state::State;
use algorithm::{Algorithm, Direction};
use apdu::{
    Body, Invoke, Request, ReturnResult, WtanParamRes, WtatInfo, WtatParamArg, WtatParamRes,
};
use entries::{KeyPlace, Subscriber};
use values::{AuthSession, AuthUnit, Challenge, Draw, User, UserKey};
use wire::{ErrorCode, Provider};

// A session under the user's key and the drawn parameter.
fn make_session<A: Algorithm>(
    draw: &Draw,
    key: &UserKey,
    direction: Direction,
    algorithm: &mut A,
) -> AuthSession
    ensures value { result ≡ session_made (A.meaning algorithm.old) draw.now key.now direction }
    ensures same { A.meaning algorithm.new ≡ A.meaning algorithm.old }
{
    let parameter = draw.parameter();
    let key = algorithm.session(direction, key, &parameter);
    AuthSession { key, parameter }
}

// The user's proof, as a session.
fn session_values<A: Algorithm>(draw: &Draw, key: &UserKey, algorithm: &mut A) -> WtatParamRes
    ensures value { let m = A.meaning algorithm.old in
        result
        ≡ record {
          algorithm = m.number;
          info = info.Session (session_made m draw.now key.now direction.User);
        } }
    ensures same { A.meaning algorithm.new ≡ A.meaning algorithm.old }
{
    let session = make_session(draw, key, Direction::User, algorithm);
    WtatParamRes {
        algorithm: algorithm.number(),
        info: WtatInfo::Session(session),
    }
}

// The user's proof, as a unit: the challenge that was sent, else the drawn one, and the response to it.
fn unit_values<A: Algorithm>(
    draw: &Draw,
    key: &UserKey,
    challenge: Option<Challenge>,
    algorithm: &mut A,
) -> WtatParamRes
    ensures value { let m = A.meaning algorithm.old in
        result
        ≡ record {
          algorithm = m.number;
          info = info.Unit (unit_made m draw.now key.now (challenge_or challenge draw.now));
        } }
    ensures same { A.meaning algorithm.new ≡ A.meaning algorithm.old }
{
    let session = make_session(draw, key, Direction::User, algorithm);
    let challenge = challenge.unwrap_or(draw.challenge());
    let response = algorithm.response(&session.key, &challenge);
    WtatParamRes {
        algorithm: algorithm.number(),
        info: WtatInfo::Unit(AuthUnit {
            challenge,
            response,
        }),
    }
}

// The network's proof, as a session.
fn proof_session<A: Algorithm>(draw: &Draw, key: &UserKey, algorithm: &mut A) -> WtanParamRes
    ensures value { result
        ≡ proof.Session
        (session_made (A.meaning algorithm.old) draw.now key.now direction.Network) }
    ensures same { A.meaning algorithm.new ≡ A.meaning algorithm.old }
{
    WtanParamRes::Session(make_session(draw, key, Direction::Network, algorithm))
}

// The network's proof, as the response to the challenge that was sent.
fn proof_response<A: Algorithm>(
    draw: &Draw,
    key: &UserKey,
    challenge: Challenge,
    algorithm: &mut A,
) -> WtanParamRes
    ensures value { let m = A.meaning algorithm.old in
        result
        ≡ proof.Response
        (m.response (session_made m draw.now key.now direction.Network).key challenge) }
    ensures same { A.meaning algorithm.new ≡ A.meaning algorithm.old }
{
    let session = make_session(draw, key, Direction::Network, algorithm);
    WtanParamRes::Response(algorithm.response(&session.key, &challenge))
}

fn answer_at_once(returned: ReturnResult) -> Handling
    ensures { result ≡ Answer (body.ReturnResult returned) }
{
    Handling::Answer(Body::ReturnResult(returned))
}

fn fail_at_once(error: ErrorCode) -> Handling
    ensures { result ≡ Answer (body.ReturnError error) }
{
    Handling::Answer(Body::ReturnError(error))
}

// A dialogue opens for a peer's invoke, and an invoke of ours goes to the peer that is asked.
fn open(asked: Asked, state: State, invoke: Invoke) -> Handling
    requires { 1 ≤ asked.id.0 }
    ensures { result ≡ opens asked state invoke }
{
    Handling::Opens {
        state,
        outcome: asked.invoke(invoke),
    }
}

// authWtmUser: on to the terminal with the unit that it brings, or Home is asked for one.
fn visit(fit: &FitOut, next: OwnNumber, owed: Owed, user: User, unit: Option<AuthUnit>) -> Handling
    requires { 1 ≤ next.0 }
    ensures { result ≡ visited fit.now next owed user unit }
{
    if let Some(unit) = unit {
        let expected = unit.response;
        let challenge = unit.challenge;
        return Handling::Opens {
            state: State::Executing {
                owed: Some(owed),
                expected,
            },
            outcome: Outcome::Report {
                name: next,
                report: Report::Challenge(challenge),
            },
        };
    }
    let asked = next.asking(fit.home);
    let computes = fit.can_compute;
    let state = State::Requesting {
        asked,
        owed: Some(owed),
        computes,
    };
    let arg = WtatParamArg {
        computes,
        challenge: None,
    };
    let request = Request::WtatParam(Provider::Home, arg);
    open(asked, state, Invoke { user, request })
}

// Operation, place, canCompute and algorithm number together decide, in one `match`. `next` is the next number.
pub(crate) fn handle<A: Algorithm>(
    fit: &FitOut,
    next: OwnNumber,
    owed: Owed,
    draw: &Draw,
    invoke: &Invoke,
    subscriber: Option<Subscriber>,
    algorithm: &mut A,
) -> Handling
    requires next { 1 ≤ next.0 }
    ensures value { result
        ≡ handled fit.now next owed (A.meaning algorithm.old) draw.now invoke.now subscriber }
    ensures same { A.meaning algorithm.new ≡ A.meaning algorithm.old }
{
    let user = invoke.user;
    let asked = next.asking(fit.server);
    match (
        &invoke.request,
        subscriber
            .as_ref()
            .map(|found| (found.key_place, &found.user_key)),
    ) {
        (Request::AuthWtmUser(unit), _) => visit(fit, next, owed, user, *unit),
        (_, None) => fail_at_once(ErrorCode::InvalidServedUserNr),
        // Where the parameters are at the server the same fields go there.
        (Request::WtatParam(Provider::Home, arg), Some((KeyPlace::Server, _))) => {
            let computes = arg.computes;
            let state = State::FetchingForVisitor {
                asked,
                owed,
                computes,
            };
            let request = Request::WtatParam(Provider::Server, *arg);
            open(asked, state, Invoke { user, request })
        }
        (Request::WtanParam(Provider::Home, arg), Some((KeyPlace::Server, _))) => {
            let computes = arg.computes;
            let state = State::FetchingProof {
                asked,
                owed,
                computes,
            };
            let request = Request::WtanParam(Provider::Server, *arg);
            open(asked, state, Invoke { user, request })
        }
        (Request::WtatParam(provider, arg), Some((KeyPlace::Here, key))) if arg.computes => {
            let values = session_values(draw, key, algorithm);
            answer_at_once(ReturnResult::WtatParam(*provider, values))
        }
        (Request::WtatParam(provider, arg), Some((KeyPlace::Here, key))) => {
            let values = unit_values(draw, key, arg.challenge, algorithm);
            answer_at_once(ReturnResult::WtatParam(*provider, values))
        }
        (Request::WtanParam(provider, arg), Some((KeyPlace::Here, key)))
            if arg.algorithm == algorithm.number() && arg.computes => {
            let proof = proof_session(draw, key, algorithm);
            answer_at_once(ReturnResult::WtanParam(*provider, proof))
        }
        (Request::WtanParam(provider, arg), Some((KeyPlace::Here, key)))
            if arg.algorithm == algorithm.number() => {
            let proof = proof_response(draw, key, arg.challenge, algorithm);
            answer_at_once(ReturnResult::WtanParam(*provider, proof))
        }
        _ => fail_at_once(ErrorCode::ParamNotAvailable),
    }
}
