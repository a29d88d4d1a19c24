// What an APDU says.
ghost use Rattle.std.specs.Prelude.{◌≡◌};
ghost use Rattle.apdu.specs.Operations.{request_operation, result_operation};

use values::{AuthSession, AuthUnit, Challenge, InvokeId, Response, User};
use wire::{ErrorCode, Operation, Problem, Provider, Verdict};

/// The argument of getWtatParam and wtatParamEnq.
#[derive(Clone, Copy)]
pub struct WtatParamArg {
    /// Whether the asker can compute responses from a session key.
    pub computes: bool,
    /// The challenge that a unit is wanted for, if the asker has one.
    pub challenge: Option<Challenge>,
}

/// The argument of getWtanParam and wtanParamEnq.
#[derive(Clone, Copy)]
pub struct WtanParamArg {
    /// Whether the asker can compute responses from a session key.
    pub computes: bool,
    /// The challenge of the user's terminal.
    pub challenge: Challenge,
    /// The number of the algorithm that is asked for.
    pub algorithm: u8,
}

/// What is asked of a user.
#[derive(Clone, Copy)]
pub enum Request {
    /// authWtmUser: that the user is checked, by this unit if the asker has one.
    AuthWtmUser(Option<AuthUnit>),
    /// What the user can be checked by: getWtatParam of Home, wtatParamEnq of the server.
    WtatParam(Provider, WtatParamArg),
    /// What the network can prove itself by: getWtanParam of Home, wtanParamEnq of the server.
    WtanParam(Provider, WtanParamArg),
}

impl Request {
    /// The operation that asks it.
    pub fn operation(&self) -> Operation
        ensures { result ≡ request_operation self.now }
    {
        match self {
            Request::AuthWtmUser(_) => Operation::AuthWtmUser,
            Request::WtatParam(provider, _) => Operation::WtatParam(*provider),
            Request::WtanParam(provider, _) => Operation::WtanParam(*provider),
        }
    }
}

/// The user that an invoke speaks of, and what is asked.
#[derive(Clone, Copy)]
pub struct Invoke {
    /// The user that it speaks of.
    pub user: User,
    /// What is asked of the user.
    pub request: Request,
}

/// What a user is checked by.
#[derive(Clone, Copy)]
pub enum WtatInfo {
    /// A challenge and the response to it.
    Unit(AuthUnit),
    /// A session key, which responses are computed from, and the parameter that it was made from.
    Session(AuthSession),
}

/// The result of getWtatParam and wtatParamEnq.
#[derive(Clone, Copy)]
pub struct WtatParamRes {
    /// The number of the algorithm that made it.
    pub algorithm: u8,
    /// What the user is checked by.
    pub info: WtatInfo,
}

/// The result of getWtanParam and wtanParamEnq: what the network proves itself by.
#[derive(Clone, Copy)]
pub enum WtanParamRes {
    /// A session key, to an asker that computes the response from it, and the parameter that it was made from.
    Session(AuthSession),
    /// The response to the challenge of the user's terminal, of 4 bytes.
    Response(Response),
}

/// What an operation gave.
#[derive(Clone, Copy)]
pub enum ReturnResult {
    /// authWtmUser: whether the user's response was the expected one.
    AuthWtmUser(Verdict),
    /// getWtatParam of Home, wtatParamEnq of the server.
    WtatParam(Provider, WtatParamRes),
    /// getWtanParam of Home, wtanParamEnq of the server.
    WtanParam(Provider, WtanParamRes),
}

impl ReturnResult {
    /// The operation that gave it.
    pub fn operation(&self) -> Operation
        ensures { result ≡ result_operation self.now }
    {
        match self {
            ReturnResult::AuthWtmUser(_) => Operation::AuthWtmUser,
            ReturnResult::WtatParam(provider, _) => Operation::WtatParam(*provider),
            ReturnResult::WtanParam(provider, _) => Operation::WtanParam(*provider),
        }
    }
}

/// What an APDU says under its id, by its kind.
#[derive(Clone, Copy)]
pub enum Body {
    /// That an operation is to be done.
    Invoke(Invoke),
    /// What the operation of the invoke gave.
    ReturnResult(ReturnResult),
    /// That the operation failed, and why.
    ReturnError(ErrorCode),
    /// That the invoke is rejected, and for what problem, which may be any number.
    Reject(u8),
}

/// What one exchange sends another: an invoke, or the answer to one.
#[derive(Clone, Copy)]
pub struct Apdu {
    /// The id of the invoke, or of the invoke that it answers.
    pub id: InvokeId,
    /// What it says under its id.
    pub body: Body,
}

/// Why a string of bytes is no APDU. The id is a parameter of the type, so that a host may take apart by value what `read` gives:
/// docs/DECISIONS.md has the reason. It is always an `InvokeId`.
#[derive(Clone, Copy, PartialEq, Eq, Debug)]
pub enum NoApdu<I = InvokeId> {
    /// It is an invoke to be answered by a reject with this problem.
    RejectDue {
        /// The id of the invoke.
        id: I,
        /// What is wrong with it.
        problem: Problem,
    },
    /// It is neither an APDU nor due a reject.
    Garbled,
}
