// What stands behind the invoke id, the operation or the user: the fields of a shape, that one value is read from.
ghost use Rattle.std.specs.Prelude.{◌≡◌, Some, None, if◌then◌else◌};
ghost use Rattle.std.specs.Option.{option_map};
ghost use Rattle.wire.specs.Fields.{unread, is_nothing};
ghost use Rattle.wire.specs.Fronts.{HasRoom, InOneBuffer, Wrote};
ghost use Rattle.wire.specs.FieldValues.{IfAny};
ghost use Rattle.values.specs.Proof.{UnitSized};
ghost use Rattle.apdu.specs.Grammar.{auth_wtm_arg, wtat_param_arg, wtan_param_arg, auth_wtm_res, wtat_info, wtat_param_res, wtan_param_res, return_error, reject};
ghost use Rattle.apdu.specs.Laws.{Always, IsWtatParamArg, IsWtanParamArg, IsWtatParamRes, IsWtanParamRes};
ghost use Rattle.apdu.specs.Shapes.{Shape, shaped, shape_bytes, shape_room};

use crate::apdus::{WtanParamArg, WtanParamRes, WtatInfo, WtatParamArg, WtatParamRes};
use values::{AuthSession, AuthUnit, Challenge};
use wire::{ErrorCode, Reader, Verdict, Writer, byte_in, bytes_in, flag_in, tags};

pub(crate) trait Shaped: Sized {
    ghost shape: { Shape Self };

    // What its type says of it.
    ghost lawful: { Self → Type 0 };

    // What the bytes say to their end, if they have the shape.
    fn read(fields: &mut Reader<'_>) -> Option<Self>
        ensures { result ≡ shaped shape (unread fields.old) };

    // Writes the fields that it is read from.
    fn write(&self, writer: &mut Writer<'_>)
        requires { HasRoom writer.old shape_room }
        ensures same_buffer { InOneBuffer writer.old writer.new }
        ensures wrote { Wrote writer.old (shape_bytes shape self.now) writer.new }
        ensures lawful { lawful self.now };
}

// A value that has been read, if nothing stands behind it.
fn all_read<T>(fields: &Reader<'_>, value: T) -> Option<T>
where
    T: Drop,
    ensures { result ≡ (if is_nothing (unread fields.now) then Some value else None) }
{
    fields.is_done().then_some(value)
}

// The unit that a user is to be checked by, if the asker has one.
impl Shaped for Option<AuthUnit> {
    ghost shape = { auth_wtm_arg };

    ghost lawful = { IfAny UnitSized };

    fn read(fields: &mut Reader<'_>) -> Option<Option<AuthUnit>> {
        let unit = match fields.take_value(tags::UNIT) {
            None => None,
            Some(value) => Some(AuthUnit::read(value)?),
        };
        all_read(fields, unit)
    }

    fn write(&self, writer: &mut Writer<'_>) {
        if let Some(unit) = self {
            unit.write(tags::UNIT, writer);
        }
    }
}

impl Shaped for WtatParamArg {
    ghost shape = { wtat_param_arg };

    ghost lawful = { IsWtatParamArg };

    #[inline(always)]
    fn read(fields: &mut Reader<'_>) -> Option<WtatParamArg> {
        let computes = flag_in(fields.take_value(tags::CAN_COMPUTE))?;
        let challenge = match fields.take_value(tags::CHALLENGE) {
            None => None,
            Some(value) => Some(Challenge::from_bytes(value)?),
        };
        all_read(
            fields,
            WtatParamArg {
                computes,
                challenge,
            },
        )
    }

    #[inline(always)]
    fn write(&self, writer: &mut Writer<'_>) {
        writer.flag(tags::CAN_COMPUTE, self.computes);
        if let Some(challenge) = &self.challenge {
            writer.field(tags::CHALLENGE, challenge.bytes());
        }
    }
}

impl Shaped for WtanParamArg {
    ghost shape = { wtan_param_arg };

    ghost lawful = { IsWtanParamArg };

    #[inline(always)]
    fn read(fields: &mut Reader<'_>) -> Option<WtanParamArg> {
        let computes = flag_in(fields.take_value(tags::CAN_COMPUTE))?;
        let challenge = Challenge::from_bytes(fields.take_value(tags::CHALLENGE)?)?;
        let algorithm = byte_in(fields.take_value(tags::ALGORITHM)?)?;
        all_read(
            fields,
            WtanParamArg {
                computes,
                challenge,
                algorithm,
            },
        )
    }

    #[inline(always)]
    fn write(&self, writer: &mut Writer<'_>) {
        writer.flag(tags::CAN_COMPUTE, self.computes);
        writer.field(tags::CHALLENGE, self.challenge.bytes());
        writer.byte(tags::ALGORITHM, self.algorithm);
    }
}

impl Shaped for Verdict {
    ghost shape = { auth_wtm_res };

    ghost lawful = { Always };

    fn read(fields: &mut Reader<'_>) -> Option<Verdict> {
        let verdict = Verdict::try_from(byte_in(fields.take_value(tags::VERDICT)?)?).ok()?;
        all_read(fields, verdict)
    }

    fn write(&self, writer: &mut Writer<'_>) {
        writer.byte(tags::VERDICT, (*self).into());
    }
}

// One of unit and session, and not both.
fn wtat_info_in(unit: Option<&[u8]>, session: Option<&[u8]>) -> Option<WtatInfo>
    ensures { result ≡ wtat_info
        (option_map (λ x. x.now) unit.entry) (option_map (λ x. x.now) session.entry) }
{
    match (unit, session) {
        (Some(value), None) => Some(WtatInfo::Unit(AuthUnit::read(value)?)),
        (None, Some(value)) => Some(WtatInfo::Session(AuthSession::read(value)?)),
        _ => None,
    }
}

impl Shaped for WtatParamRes {
    ghost shape = { wtat_param_res };

    ghost lawful = { IsWtatParamRes };

    #[inline(always)]
    fn read(fields: &mut Reader<'_>) -> Option<WtatParamRes> {
        let algorithm = byte_in(fields.take_value(tags::ALGORITHM)?)?;
        let unit = fields.take_value(tags::UNIT);
        let session = fields.take_value(tags::SESSION);
        let info = wtat_info_in(unit, session)?;
        all_read(fields, WtatParamRes { algorithm, info })
    }

    #[inline(always)]
    fn write(&self, writer: &mut Writer<'_>) {
        writer.byte(tags::ALGORITHM, self.algorithm);
        match &self.info {
            WtatInfo::Unit(unit) => unit.write(tags::UNIT, writer),
            WtatInfo::Session(session) => session.write(tags::SESSION, writer),
        }
    }
}

impl Shaped for WtanParamRes {
    ghost shape = { wtan_param_res };

    ghost lawful = { IsWtanParamRes };

    fn read(fields: &mut Reader<'_>) -> Option<WtanParamRes> {
        let session = fields.take_value(tags::SESSION);
        let response = fields.take_value(tags::RESPONSE);
        let res = match (session, response) {
            (Some(value), None) => WtanParamRes::Session(AuthSession::read(value)?),
            (None, Some(value)) => WtanParamRes::Response(bytes_in(value)?),
            _ => return None,
        };
        all_read(fields, res)
    }

    #[inline(always)]
    fn write(&self, writer: &mut Writer<'_>) {
        match self {
            WtanParamRes::Session(session) => session.write(tags::SESSION, writer),
            WtanParamRes::Response(response) => writer.field(tags::RESPONSE, response),
        }
    }
}

impl Shaped for ErrorCode {
    ghost shape = { return_error };

    ghost lawful = { Always };

    fn read(fields: &mut Reader<'_>) -> Option<ErrorCode> {
        let error = ErrorCode::try_from(byte_in(fields.take_value(tags::ERROR)?)?).ok()?;
        all_read(fields, error)
    }

    fn write(&self, writer: &mut Writer<'_>) {
        writer.byte(tags::ERROR, (*self).into());
    }
}

// The problem of a reject, which may be any.
impl Shaped for u8 {
    ghost shape = { reject };

    ghost lawful = { Always };

    fn read(fields: &mut Reader<'_>) -> Option<u8> {
        let problem = byte_in(fields.take_value(tags::PROBLEM)?)?;
        all_read(fields, problem)
    }

    fn write(&self, writer: &mut Writer<'_>) {
        writer.byte(tags::PROBLEM, *self);
    }
}
