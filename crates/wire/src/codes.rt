// The code lists: what each number in a field of one byte stands for.
ghost use Rattle.std.specs.Prelude.{◌≡◌};
ghost use Rattle.std.specs.Option.{ok_or};
ghost use Rattle.wire.specs.Codes.{kind_number, kind_of, operation_number, operation_of, verdict_number, verdict_of, error_number, error_of, problem_number};

/// A number that stands for nothing in its list.
#[derive(Clone, Copy, PartialEq, Eq, Debug)]
pub struct UnknownNumber(pub u8);

/// The kinds of an APDU, by their numbers.
#[derive(Clone, Copy, PartialEq, Eq, Debug)]
pub enum Kind {
    /// Asks for an operation.
    Invoke = 1,
    /// Answers an invoke by what it asked for.
    ReturnResult = 2,
    /// Answers an invoke by an error: it was understood, and is not served.
    ReturnError = 3,
    /// Answers an invoke that was not understood.
    Reject = 4,
}

impl From<Kind> for u8 {
    ghost from_gives = { λ kind n. n ≡ kind_number kind };

    fn from(kind: Kind) -> u8 {
        kind as u8
    }
}

impl TryFrom<u8> for Kind {
    type Error = UnknownNumber;

    ghost try_from_gives = { λ n answer. answer ≡ ok_or (kind_of n) (record { 0 = n }) };

    fn try_from(number: u8) -> Result<Kind, UnknownNumber> {
        match number {
            1 => Ok(Kind::Invoke),
            2 => Ok(Kind::ReturnResult),
            3 => Ok(Kind::ReturnError),
            4 => Ok(Kind::Reject),
            _ => Err(UnknownNumber(number)),
        }
    }
}

/// Who is asked for a user's parameters: Home, or the authentication server.
#[derive(Clone, Copy, PartialEq, Eq, Debug)]
pub enum Provider {
    /// The user's home exchange.
    Home,
    /// The authentication server.
    Server,
}

/// What an invoke asks for: by number 1 authWtmUser, 2 getWtatParam, 3 wtatParamEnq, 4 getWtanParam, 5 wtanParamEnq.
#[derive(Clone, Copy, PartialEq, Eq, Debug)]
pub enum Operation {
    /// authWtmUser: that a user is authenticated.
    AuthWtmUser,
    /// What a user can be checked by: getWtatParam asks Home, wtatParamEnq the server.
    WtatParam(Provider),
    /// What the network can prove itself by: getWtanParam asks Home, wtanParamEnq the server.
    WtanParam(Provider),
}

impl From<Operation> for u8 {
    ghost from_gives = { λ operation n. n ≡ operation_number operation };

    fn from(operation: Operation) -> u8 {
        match operation {
            Operation::AuthWtmUser => 1,
            Operation::WtatParam(Provider::Home) => 2,
            Operation::WtatParam(Provider::Server) => 3,
            Operation::WtanParam(Provider::Home) => 4,
            Operation::WtanParam(Provider::Server) => 5,
        }
    }
}

impl TryFrom<u8> for Operation {
    type Error = UnknownNumber;

    ghost try_from_gives = { λ n answer. answer ≡ ok_or (operation_of n) (record { 0 = n }) };

    fn try_from(number: u8) -> Result<Operation, UnknownNumber> {
        match number {
            1 => Ok(Operation::AuthWtmUser),
            2 => Ok(Operation::WtatParam(Provider::Home)),
            3 => Ok(Operation::WtatParam(Provider::Server)),
            4 => Ok(Operation::WtanParam(Provider::Home)),
            5 => Ok(Operation::WtanParam(Provider::Server)),
            _ => Err(UnknownNumber(number)),
        }
    }
}

/// Whether a user's response was the expected one.
#[derive(Clone, Copy, PartialEq, Eq, Debug)]
pub enum Verdict {
    /// It was.
    Correct = 0,
    /// It was another.
    Incorrect = 1,
}

impl From<Verdict> for u8 {
    ghost from_gives = { λ verdict n. n ≡ verdict_number verdict };

    fn from(verdict: Verdict) -> u8 {
        verdict as u8
    }
}

impl TryFrom<u8> for Verdict {
    type Error = UnknownNumber;

    ghost try_from_gives = { λ n answer. answer ≡ ok_or (verdict_of n) (record { 0 = n }) };

    fn try_from(number: u8) -> Result<Verdict, UnknownNumber> {
        match number {
            0 => Ok(Verdict::Correct),
            1 => Ok(Verdict::Incorrect),
            _ => Err(UnknownNumber(number)),
        }
    }
}

/// Why an invoke is answered by an error.
#[derive(Clone, Copy, PartialEq, Eq, Debug)]
pub enum ErrorCode {
    /// Whoever was asked has no record of the user.
    InvalidServedUserNr = 1,
    /// What was asked for cannot be given or computed.
    ParamNotAvailable = 2,
    /// There is no place or number for a dialogue, or an answer did not come in time.
    TemporarilyUnavailable = 3,
    /// The user may not use the service.
    NotAuthorized = 4,
    /// For another reason.
    Unspecified = 5,
}

impl From<ErrorCode> for u8 {
    ghost from_gives = { λ error n. n ≡ error_number error };

    fn from(error: ErrorCode) -> u8 {
        error as u8
    }
}

impl TryFrom<u8> for ErrorCode {
    type Error = UnknownNumber;

    ghost try_from_gives = { λ n answer. answer ≡ ok_or (error_of n) (record { 0 = n }) };

    fn try_from(number: u8) -> Result<ErrorCode, UnknownNumber> {
        match number {
            1 => Ok(ErrorCode::InvalidServedUserNr),
            2 => Ok(ErrorCode::ParamNotAvailable),
            3 => Ok(ErrorCode::TemporarilyUnavailable),
            4 => Ok(ErrorCode::NotAuthorized),
            5 => Ok(ErrorCode::Unspecified),
            _ => Err(UnknownNumber(number)),
        }
    }
}

/// Why an invoke is answered by a reject. A reject that is received may have any number.
#[derive(Clone, Copy, PartialEq, Eq, Debug)]
pub enum Problem {
    /// No operation has this number.
    UnknownOperation = 1,
    /// What follows the operation is not what the operation has.
    WrongArgument = 2,
}

impl From<Problem> for u8 {
    ghost from_gives = { λ problem n. n ≡ problem_number problem };

    fn from(problem: Problem) -> u8 {
        problem as u8
    }
}
