// Writing an APDU to the front of a lent buffer.
ghost use Rattle.std.specs.Prelude.{◌≡◌, ◌≤◌, length, OnOk};
ghost use Rattle.wire.specs.Fronts.{HasRoom, InOneBuffer, Wrote, front};
ghost use Rattle.apdu.specs.declared.apdus.Body.TheVariants as body;
ghost use Rattle.apdu.specs.Encode.{kind_of_body, body_bytes, encode, invoke_room, result_room, body_room, least_buffer, write_answer, write_buffer};
ghost use Rattle.apdu.specs.Laws.{IsRequest, IsInvoke, IsResult, IsBody, IsApdu, WrittenReadsBack, WithinLongest};
ghost use Rattle.apdu.specs.Operations.{request_bytes};
ghost use Rattle.apdu.specs.Shapes.{shape_room};

use crate::apdus::{Apdu, Body, Invoke, Request, ReturnResult};
use crate::shaped::Shaped;
use refusal::Refusal;
use wire::{Kind, Writer, tags};

/// The bytes of the smallest buffer that an APDU is written into.
pub const LEAST_BUFFER: usize = 64;

impl Request {
    // What follows the user.
    fn write(&self, writer: &mut Writer<'_>)
        requires { HasRoom writer.old shape_room }
        ensures same_buffer { InOneBuffer writer.old writer.new }
        ensures wrote { Wrote writer.old (request_bytes self.now) writer.new }
        ensures lawful { IsRequest self.now }
    {
        match self {
            Request::AuthWtmUser(unit) => unit.write(writer),
            Request::WtatParam(_, arg) => arg.write(writer),
            Request::WtanParam(_, arg) => arg.write(writer),
        }
    }
}

impl Invoke {
    // The operation and what follows it.
    fn write(&self, writer: &mut Writer<'_>)
        requires { HasRoom writer.old invoke_room }
        ensures same_buffer { InOneBuffer writer.old writer.new }
        ensures wrote { Wrote writer.old (body_bytes (body.Invoke self.now)) writer.new }
        ensures lawful { IsInvoke self.now }
    {
        writer.byte(tags::OPERATION, self.request.operation().into());
        self.user.write(tags::USER, writer);
        self.request.write(writer);
    }
}

impl ReturnResult {
    // The operation and what follows it.
    fn write(&self, writer: &mut Writer<'_>)
        requires { HasRoom writer.old result_room }
        ensures same_buffer { InOneBuffer writer.old writer.new }
        ensures wrote { Wrote writer.old (body_bytes (body.ReturnResult self.now)) writer.new }
        ensures lawful { IsResult self.now }
    {
        writer.byte(tags::OPERATION, self.operation().into());
        match self {
            ReturnResult::AuthWtmUser(verdict) => verdict.write(writer),
            ReturnResult::WtatParam(_, res) => res.write(writer),
            ReturnResult::WtanParam(_, res) => res.write(writer),
        }
    }
}

impl Body {
    fn kind(&self) -> Kind
        ensures { result ≡ kind_of_body self.now }
    {
        match self {
            Body::Invoke(_) => Kind::Invoke,
            Body::ReturnResult(_) => Kind::ReturnResult,
            Body::ReturnError(_) => Kind::ReturnError,
            Body::Reject(_) => Kind::Reject,
        }
    }

    // What follows the invoke id.
    fn write(&self, writer: &mut Writer<'_>)
        requires { HasRoom writer.old body_room }
        ensures same_buffer { InOneBuffer writer.old writer.new }
        ensures wrote { Wrote writer.old (body_bytes self.now) writer.new }
        ensures lawful { IsBody self.now }
    {
        match self {
            Body::Invoke(invoke) => invoke.write(writer),
            Body::ReturnResult(result) => result.write(writer),
            Body::ReturnError(error) => error.write(writer),
            Body::Reject(problem) => problem.write(writer),
        }
    }
}

impl Apdu {
    fn write(&self, writer: &mut Writer<'_>)
        requires { HasRoom writer.old least_buffer }
        ensures same_buffer { InOneBuffer writer.old writer.new }
        ensures wrote { Wrote writer.old (encode self.now) writer.new }
        ensures lawful { IsApdu self.now }
    {
        writer.byte(tags::KIND, self.body.kind().into());
        writer.field(tags::ID, &self.id.bytes());
        self.body.write(writer);
    }
}

fn encode(apdu: &Apdu, out: &mut [u8]) -> usize
    requires { least_buffer ≤ length out.old }
    ensures front { out.new ≡ front (encode apdu.now) out.old }
    ensures size { result ≡ length (encode apdu.now) }
    ensures lawful { IsApdu apdu.now }
{
    let mut writer = Writer::new(out);
    apdu.write(&mut writer);
    writer.count()
}

/// Writes the APDU to the front of the buffer, whose rest stays as it was, and says how many bytes it has: 49 at most.
/// What is written reads back as the same APDU (`reads_back`, of what `lawful` says).
///
/// Refused with 1 where the buffer has under `LEAST_BUFFER` bytes, which leaves it as it was.
#[tactic(auto, using(crate::proofs::WrittenReadsBack::written_reads_back, crate::proofs::WithinLongest::within_longest))]
pub fn write(apdu: &Apdu, out: &mut [u8]) -> Result<usize, Refusal>
    ensures answer { result ≡ write_answer apdu.now out.old }
    ensures buffer { out.new ≡ write_buffer apdu.now out.old }
    ensures lawful { OnOk result (IsApdu apdu.now) }
    ensures reads_back { WrittenReadsBack }
    ensures longest { WithinLongest }
{
    if out.len() < LEAST_BUFFER {
        return Err(Refusal::ShortSheet);
    }
    Ok(encode(apdu, out))
}
