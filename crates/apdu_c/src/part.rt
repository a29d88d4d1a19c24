// What stands in the fields 05 to 0D: an argument or a result of an operation, an error or a problem.
ghost use Rattle.std.specs.Prelude.{◌≡◌, ◌<◌, not, ◌==◌, bit_and};
ghost use Rattle.apdu_c.specs.Flat.{put_in};
ghost use Rattle.apdu_c.specs.Forms.{Form, given_unit, given_session, auth_wtm_arg, wtat_param_arg, wtan_param_arg, auth_wtm_res, wtat_param_res, wtan_param_res, return_error, reject};
ghost use Rattle.apdu_c.specs.Parts.{bits_after_user};

use crate::fields::Fields;
use apdu::{WtanParamArg, WtanParamRes, WtatInfo, WtatParamArg, WtatParamRes};
use values::{AuthSession, AuthUnit, Challenge};
use wire::{ErrorCode, Verdict, tags};

// The bit of each field in `present`.

pub(crate) const USER: u16 = 1 << tags::USER;

const COMPUTES: u16 = 1 << tags::CAN_COMPUTE;

const CHALLENGE: u16 = 1 << tags::CHALLENGE;

const ALGORITHM: u16 = 1 << tags::ALGORITHM;

const UNIT: u16 = 1 << tags::UNIT;

const SESSION: u16 = 1 << tags::SESSION;

const RESPONSE: u16 = 1 << tags::RESPONSE;

const VERDICT: u16 = 1 << tags::VERDICT;

const ERROR: u16 = 1 << tags::ERROR;

const PROBLEM: u16 = 1 << tags::PROBLEM;

pub(crate) trait Part: Sized + Drop {
    ghost form: { Form Self };

    // The bits of the fields that it has.
    fn present(&self) -> u16
        ensures value { result ≡ bits_after_user (form.parts self.now) }
        ensures bound { result < 16384 };

    // Sets its values; one that is absent stays as it was.
    fn put(&self, fields: &mut Fields)
        ensures { fields.new ≡ put_in fields.old (form.parts self.now) };

    // The one that the fields give, whatever else is there.
    fn given(fields: &Fields) -> Option<Self>
        ensures { result ≡ form.given fields.now };
}

impl Fields {
    // Whether the field with this bit is there.
    fn has(&self, bit: u16) -> bool
        ensures { result ≡ not (bit_and self.now.present bit == 0) }
    {
        self.present & bit != 0
    }

    fn unit(&self) -> AuthUnit
        ensures { result ≡ given_unit self.now }
    {
        AuthUnit {
            challenge: Challenge::new(self.unit_challenge),
            response: self.unit_response,
        }
    }

    fn session(&self) -> AuthSession
        ensures { result ≡ given_session self.now }
    {
        AuthSession {
            key: self.session_key,
            parameter: self.session_parameter,
        }
    }

    fn set_unit(&mut self, unit: &AuthUnit)
        ensures { self.new ≡ record self.old {
          unit_challenge = unit.now.challenge;
          unit_response = unit.now.response;
        } }
    {
        self.unit_challenge.copy_from_slice(unit.challenge.bytes());
        self.unit_response = unit.response;
    }

    fn set_session(&mut self, session: &AuthSession)
        ensures { self.new ≡ record self.old {
          session_key = session.now.key;
          session_parameter = session.now.parameter;
        } }
    {
        self.session_key = session.key;
        self.session_parameter = session.parameter;
    }
}

// The unit that a user is to be checked by, if the asker has one.
impl Part for Option<AuthUnit> {
    ghost form = { auth_wtm_arg };

    fn present(&self) -> u16 {
        match self {
            None => 0,
            Some(_) => UNIT,
        }
    }

    fn put(&self, fields: &mut Fields) {
        if let Some(unit) = self {
            fields.set_unit(unit);
        }
    }

    fn given(fields: &Fields) -> Option<Option<AuthUnit>> {
        Some(fields.has(UNIT).then_some(fields.unit()))
    }
}

impl Part for WtatParamArg {
    ghost form = { wtat_param_arg };

    fn present(&self) -> u16 {
        match (self.computes, self.challenge.is_some()) {
            (false, false) => 0,
            (true, false) => COMPUTES,
            (false, true) => CHALLENGE,
            (true, true) => COMPUTES + CHALLENGE,
        }
    }

    fn put(&self, fields: &mut Fields) {
        if let Some(challenge) = &self.challenge {
            fields.challenge.copy_from_slice(challenge.bytes());
        }
    }

    fn given(fields: &Fields) -> Option<WtatParamArg> {
        Some(WtatParamArg {
            computes: fields.has(COMPUTES),
            challenge: fields
                .has(CHALLENGE)
                .then_some(Challenge::new(fields.challenge)),
        })
    }
}

impl Part for WtanParamArg {
    ghost form = { wtan_param_arg };

    fn present(&self) -> u16 {
        if self.computes {
            COMPUTES + CHALLENGE + ALGORITHM
        } else {
            CHALLENGE + ALGORITHM
        }
    }

    fn put(&self, fields: &mut Fields) {
        fields.challenge.copy_from_slice(self.challenge.bytes());
        fields.algorithm = self.algorithm;
    }

    fn given(fields: &Fields) -> Option<WtanParamArg> {
        Some(WtanParamArg {
            computes: fields.has(COMPUTES),
            challenge: Challenge::new(fields.challenge),
            algorithm: fields.algorithm,
        })
    }
}

impl Part for Verdict {
    ghost form = { auth_wtm_res };

    fn present(&self) -> u16 {
        VERDICT
    }

    fn put(&self, fields: &mut Fields) {
        fields.verdict = (*self).into();
    }

    fn given(fields: &Fields) -> Option<Verdict> {
        Verdict::try_from(fields.verdict).ok()
    }
}

impl Part for WtatParamRes {
    ghost form = { wtat_param_res };

    fn present(&self) -> u16 {
        match self.info {
            WtatInfo::Unit(_) => ALGORITHM + UNIT,
            WtatInfo::Session(_) => ALGORITHM + SESSION,
        }
    }

    fn put(&self, fields: &mut Fields) {
        fields.algorithm = self.algorithm;
        match &self.info {
            WtatInfo::Unit(unit) => fields.set_unit(unit),
            WtatInfo::Session(session) => fields.set_session(session),
        }
    }

    // A unit, if its bit is set, and else a session.
    fn given(fields: &Fields) -> Option<WtatParamRes> {
        let info = if fields.has(UNIT) {
            WtatInfo::Unit(fields.unit())
        } else {
            WtatInfo::Session(fields.session())
        };
        Some(WtatParamRes {
            algorithm: fields.algorithm,
            info,
        })
    }
}

impl Part for WtanParamRes {
    ghost form = { wtan_param_res };

    fn present(&self) -> u16 {
        match self {
            WtanParamRes::Session(_) => SESSION,
            WtanParamRes::Response(_) => RESPONSE,
        }
    }

    fn put(&self, fields: &mut Fields) {
        match self {
            WtanParamRes::Session(session) => fields.set_session(session),
            WtanParamRes::Response(response) => fields.response = *response,
        }
    }

    // A session, if its bit is set, and else a response.
    fn given(fields: &Fields) -> Option<WtanParamRes> {
        Some(if fields.has(SESSION) {
            WtanParamRes::Session(fields.session())
        } else {
            WtanParamRes::Response(fields.response)
        })
    }
}

impl Part for ErrorCode {
    ghost form = { return_error };

    fn present(&self) -> u16 {
        ERROR
    }

    fn put(&self, fields: &mut Fields) {
        fields.error = (*self).into();
    }

    fn given(fields: &Fields) -> Option<ErrorCode> {
        ErrorCode::try_from(fields.error).ok()
    }
}

// The problem of a reject, which may be any.
impl Part for u8 {
    ghost form = { reject };

    fn present(&self) -> u16 {
        PROBLEM
    }

    fn put(&self, fields: &mut Fields) {
        fields.problem = *self;
    }

    fn given(fields: &Fields) -> Option<u8> {
        Some(fields.problem)
    }
}
