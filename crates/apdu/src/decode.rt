// What a string of bytes is: an APDU, an invoke that is due a reject, or garbled.
ghost use Rattle.std.specs.Prelude.{◌≡◌};
ghost use Rattle.wire.specs.Fields.{unread, value, after};
ghost use Rattle.wire.specs.Tags as tag;
ghost use Rattle.wire.specs.FieldValues.{must};
ghost use Rattle.values.specs.InvokeId.{id_in};
ghost use Rattle.apdu.specs.Cases.{CasesStand};
ghost use Rattle.apdu.specs.Decode.{operation_in, argument_in, invoke_in, result_in, body_in, kind_in, received_as};
ghost use Rattle.apdu.specs.Laws.{ReadWritesBack, Lawful, TagsRise};
ghost use Rattle.apdu.specs.Operations.{request_of, result_of};
ghost use Rattle.apdu.specs.Rejects.{RejectDueExactly};

use crate::apdus::{Apdu, Body, Invoke, NoApdu, Request, ReturnResult};
use crate::shaped::Shaped;
use values::{InvokeId, User};
use wire::{Kind, Operation, Problem, Reader, byte_in, tags};

// The operation's number.
fn read_operation(fields: &mut Reader<'_>) -> Option<u8>
    ensures value { result ≡ operation_in (unread fields.old) }
    ensures after { unread fields.new ≡ after tag.operation (unread fields.old) }
{
    byte_in(fields.take_value(tags::OPERATION)?)
}

impl Request {
    // What follows the user.
    fn read(operation: Operation, fields: &mut Reader<'_>) -> Option<Request>
        ensures { result ≡ request_of operation (unread fields.old) }
    {
        Some(match operation {
            Operation::AuthWtmUser => Request::AuthWtmUser(Shaped::read(fields)?),
            Operation::WtatParam(provider) => Request::WtatParam(provider, Shaped::read(fields)?),
            Operation::WtanParam(provider) => Request::WtanParam(provider, Shaped::read(fields)?),
        })
    }
}

impl Invoke {
    // What follows the operation.
    fn read(operation: Operation, fields: &mut Reader<'_>) -> Option<Invoke>
        ensures { result ≡ argument_in operation (unread fields.old) }
    {
        let user = User::from_digits(fields.take_value(tags::USER)?)?;
        let request = Request::read(operation, fields)?;
        Some(Invoke { user, request })
    }
}

impl ReturnResult {
    // What follows the operation.
    fn read(operation: Operation, fields: &mut Reader<'_>) -> Option<ReturnResult>
        ensures { result ≡ result_of operation (unread fields.old) }
    {
        Some(match operation {
            Operation::AuthWtmUser => ReturnResult::AuthWtmUser(Shaped::read(fields)?),
            Operation::WtatParam(provider) => ReturnResult::WtatParam(
                provider,
                Shaped::read(fields)?,
            ),
            Operation::WtanParam(provider) => ReturnResult::WtanParam(
                provider,
                Shaped::read(fields)?,
            ),
        })
    }
}

// What follows the invoke id of an invoke.
fn read_invoke(id: InvokeId, fields: &mut Reader<'_>) -> Result<Invoke, NoApdu>
    ensures { result ≡ invoke_in id (unread fields.old) }
{
    let number = read_operation(fields).ok_or(NoApdu::Garbled)?;
    let Ok(operation) = Operation::try_from(number) else {
        return Err(NoApdu::RejectDue {
            id,
            problem: Problem::UnknownOperation,
        });
    };
    match Invoke::read(operation, fields) {
        Some(invoke) => Ok(invoke),
        None => Err(NoApdu::RejectDue {
            id,
            problem: Problem::WrongArgument,
        }),
    }
}

fn read_return_result(fields: &mut Reader<'_>) -> Option<ReturnResult>
    ensures { result ≡ result_in (unread fields.old) }
{
    let operation = Operation::try_from(read_operation(fields)?).ok()?;
    ReturnResult::read(operation, fields)
}

// What follows the invoke id.
fn read_body(kind: Kind, id: InvokeId, fields: &mut Reader<'_>) -> Result<Body, NoApdu>
    ensures { result ≡ body_in kind id (unread fields.old) }
{
    Ok(match kind {
        Kind::Invoke => Body::Invoke(read_invoke(id, fields)?),
        Kind::ReturnResult => match read_return_result(fields) {
            Some(result) => Body::ReturnResult(result),
            None => return Err(NoApdu::Garbled),
        },
        Kind::ReturnError => Body::ReturnError(Shaped::read(fields).ok_or(NoApdu::Garbled)?),
        Kind::Reject => Body::Reject(Shaped::read(fields).ok_or(NoApdu::Garbled)?),
    })
}

// The kind of an APDU.
fn read_kind(fields: &mut Reader<'_>) -> Option<Kind>
    ensures value { result ≡ kind_in (unread fields.old) }
    ensures after { unread fields.new ≡ after tag.kind (unread fields.old) }
{
    Kind::try_from(byte_in(fields.take_value(tags::KIND)?)?).ok()
}

// The invoke id.
fn read_id(fields: &mut Reader<'_>) -> Option<InvokeId>
    ensures value { result ≡ must id_in (value tag.id (unread fields.old)) }
    ensures after { unread fields.new ≡ after tag.id (unread fields.old) }
{
    InvokeId::read(fields.take_value(tags::ID)?)
}

fn read_apdu(bytes: &[u8]) -> Result<Apdu, NoApdu>
    ensures { result ≡ received_as bytes.now }
{
    let mut fields = Reader::new(bytes);
    let kind = read_kind(&mut fields).ok_or(NoApdu::Garbled)?;
    let id = read_id(&mut fields).ok_or(NoApdu::Garbled)?;
    let body = read_body(kind, id, &mut fields)?;
    Ok(Apdu { id, body })
}

/// What a string of bytes is. What is read is written as the same bytes: whole fields, whose tags rise strictly. An invoke is
/// due a reject exactly where no operation has its number, or where what follows the number is written for no invoke of that
/// operation.
pub fn read(bytes: &[u8]) -> Result<Apdu, NoApdu>
    ensures value { result ≡ received_as bytes.now }
    ensures writes_back { ReadWritesBack }
    ensures lawful { Lawful result }
    ensures rising { TagsRise }
    ensures due { RejectDueExactly }
    ensures cases { CasesStand }
{
    read_apdu(bytes)
}
