// What C is handed of an APDU.
ghost use Rattle.std.specs.Prelude.{◌≡◌, ◌≤◌};
ghost use Rattle.wire.specs.Codes.{operation_number};
ghost use Rattle.apdu.specs.Operations.{request_operation, result_operation};
ghost use Rattle.apdu_c.specs.Flat.{flat, invoke_parts, with_parts};
ghost use Rattle.apdu_c.specs.Forms.{result_parts, request_parts};

use crate::fields::{BLANK, Fields};
use crate::part::{Part, USER};
use apdu::{Apdu, Body, Invoke, Request, ReturnResult};
use wire::Kind;

impl Fields {
    // Sets the values of a part, and its bits beside the user's.
    fn put_part<P: Part>(&mut self, part: &P)
        requires { self.old.present ≤ 16 }
        ensures { self.new ≡ with_parts self.old (P.form.parts part.now) }
    {
        self.present += part.present();
        part.put(self);
    }

    fn put_request(&mut self, request: &Request)
        requires { self.old.present ≤ 16 }
        ensures { self.new ≡ with_parts
            (record self.old { operation = operation_number (request_operation request.now) })
            (request_parts request.now) }
    {
        self.operation = request.operation().into();
        match request {
            Request::AuthWtmUser(unit) => self.put_part(unit),
            Request::WtatParam(_, arg) => self.put_part(arg),
            Request::WtanParam(_, arg) => self.put_part(arg),
        }
    }

    fn put_result(&mut self, answer: &ReturnResult)
        requires { self.old.present ≤ 16 }
        ensures { self.new ≡ with_parts
            (record self.old { operation = operation_number (result_operation answer.now) })
            (result_parts answer.now) }
    {
        self.operation = answer.operation().into();
        match answer {
            ReturnResult::AuthWtmUser(verdict) => self.put_part(verdict),
            ReturnResult::WtatParam(_, res) => self.put_part(res),
            ReturnResult::WtanParam(_, res) => self.put_part(res),
        }
    }
}

// The fields of an APDU; a value that is absent is zero.
impl From<&Apdu> for Fields {
    ghost from_gives = { λ apdu fields. fields ≡ flat apdu.now };

    fn from(apdu: &Apdu) -> Fields {
        let mut fields = Fields {
            id: apdu.id.number(),
            ..BLANK
        };
        match &apdu.body {
            Body::Invoke(invoke) => {
                fields.kind = Kind::Invoke.into();
                fields.user = invoke.user.key();
                fields.present = USER;
                fields.put_request(&invoke.request);
            }
            Body::ReturnResult(result) => {
                fields.kind = Kind::ReturnResult.into();
                fields.put_result(result);
            }
            Body::ReturnError(error) => {
                fields.kind = Kind::ReturnError.into();
                fields.put_part(error);
            }
            Body::Reject(problem) => {
                fields.kind = Kind::Reject.into();
                fields.put_part(problem);
            }
        }
        fields
    }
}
