// The APDU that the fields from C make.
ghost use Rattle.std.specs.Prelude.{◌≡◌, ◌≤◌, ℕ, List, length};
ghost use Rattle.std.specs.Option.{option_map, ok_or};
ghost use Rattle.refusal.specs.declared.Refusal.TheVariants.{Garbled};
ghost use Rattle.apdu.specs.declared.apdus.Apdu.{Apdu};
ghost use Rattle.apdu.specs.declared.apdus.Body.TheVariants as body;
ghost use Rattle.apdu.specs.Encode.{least_buffer, encode, write_buffer};
ghost use Rattle.apdu_c.specs.Given.{apdu_with, fitting_part, fitting_invoke, fitting_result, apdu_of, left_for};
ghost use Rattle.apdu_c.specs.Forms.{return_error, reject};

use crate::fields::Fields;
use crate::part::{Part, USER};
use apdu::{Apdu, Body, Invoke, Request, ReturnResult, write};
use refusal::Refusal;
use values::{InvokeId, User};
use wire::{Kind, Operation};

// What an APDU is handed to, with a buffer, by the branch that makes it, where its form is known.
pub(crate) trait Taker {
    type Answer;

    ghost fits: { List ℕ → Type 0 };

    ghost answers: { Apdu → Self.Answer };

    ghost leaves: { Apdu → List ℕ → List ℕ };

    fn take(apdu: &Apdu, out: &mut [u8]) -> Self::Answer
        requires { fits out.old }
        ensures answer { result ≡ answers apdu.now }
        ensures left { out.new ≡ leaves apdu.now out.old };
}

// Writes it to the front of the buffer, and gives its length.
pub(crate) struct Written;

impl Taker for Written {
    type Answer = usize;

    ghost fits = { λ out. least_buffer ≤ length out };

    ghost answers = { λ apdu. length (encode apdu) };

    ghost leaves = { write_buffer };

    fn take(apdu: &Apdu, out: &mut [u8]) -> usize {
        write(apdu, out).unwrap()
    }
}

// Gives it as it is, and leaves the buffer as it was.
struct Kept;

impl Taker for Kept {
    type Answer = Apdu;

    ghost fits = { λ out. Unit {0} };

    ghost answers = { λ apdu. apdu };

    ghost leaves = { λ apdu out. out };

    fn take(apdu: &Apdu, _out: &mut [u8]) -> Apdu {
        *apdu
    }
}

impl Fields {
    // The part that the fields make, if those that are there are exactly its own and these.
    fn part<P: Part>(&self, others: u16) -> Option<P>
        requires { others ≤ 16 }
        ensures { result ≡ fitting_part others P.form self.now }
    {
        P::given(self).filter(|part| self.present == others + part.present())
    }

    // Hands on the invoke that the fields make.
    fn hand_invoke<T: Taker>(&self, id: InvokeId, out: &mut [u8]) -> Option<T::Answer>
        requires { T.fits out.old }
        ensures answer { result
            ≡ option_map T.answers (apdu_with id body.Invoke (fitting_invoke self.now)) }
        ensures left { out.new
            ≡ left_for T.leaves (apdu_with id body.Invoke (fitting_invoke self.now)) out.old }
    {
        let user = User::from_key(self.user)?;
        let ask = |request| Apdu {
            id,
            body: Body::Invoke(Invoke { user, request }),
        };
        Some(match Operation::try_from(self.operation).ok()? {
            Operation::AuthWtmUser => {
                let unit = self.part(USER)?;
                T::take(&ask(Request::AuthWtmUser(unit)), out)
            }
            Operation::WtatParam(provider) => {
                let arg = self.part(USER)?;
                T::take(&ask(Request::WtatParam(provider, arg)), out)
            }
            Operation::WtanParam(provider) => {
                let arg = self.part(USER)?;
                T::take(&ask(Request::WtanParam(provider, arg)), out)
            }
        })
    }

    // Hands on the result that the fields make.
    fn hand_result<T: Taker>(&self, id: InvokeId, out: &mut [u8]) -> Option<T::Answer>
        requires { T.fits out.old }
        ensures answer { result
            ≡ option_map T.answers (apdu_with id body.ReturnResult (fitting_result self.now)) }
        ensures left { out.new
            ≡ left_for T.leaves (apdu_with id body.ReturnResult (fitting_result self.now)) out.old }
    {
        let answer = |returned| Apdu {
            id,
            body: Body::ReturnResult(returned),
        };
        Some(match Operation::try_from(self.operation).ok()? {
            Operation::AuthWtmUser => {
                let verdict = self.part(0)?;
                T::take(&answer(ReturnResult::AuthWtmUser(verdict)), out)
            }
            Operation::WtatParam(provider) => {
                let res = self.part(0)?;
                T::take(&answer(ReturnResult::WtatParam(provider, res)), out)
            }
            Operation::WtanParam(provider) => {
                let res = self.part(0)?;
                T::take(&answer(ReturnResult::WtanParam(provider, res)), out)
            }
        })
    }

    // Hands on the error that the fields make.
    #[inline(always)]
    fn hand_error<T: Taker>(&self, id: InvokeId, out: &mut [u8]) -> Option<T::Answer>
        requires { T.fits out.old }
        ensures answer { result
            ≡ option_map T.answers (apdu_with id body.ReturnError (fitting_part 0 return_error self.now)) }
        ensures left { out.new
            ≡ left_for T.leaves (apdu_with id body.ReturnError (fitting_part 0 return_error self.now)) out.old }
    {
        let body = Body::ReturnError(self.part(0)?);
        Some(T::take(&Apdu { id, body }, out))
    }

    // Hands on the reject that the fields make.
    #[inline(always)]
    fn hand_reject<T: Taker>(&self, id: InvokeId, out: &mut [u8]) -> Option<T::Answer>
        requires { T.fits out.old }
        ensures answer { result
            ≡ option_map T.answers (apdu_with id body.Reject (fitting_part 0 reject self.now)) }
        ensures left { out.new
            ≡ left_for T.leaves (apdu_with id body.Reject (fitting_part 0 reject self.now)) out.old }
    {
        let body = Body::Reject(self.part(0)?);
        Some(T::take(&Apdu { id, body }, out))
    }

    // Hands on the APDU that the fields make; None where they make none.
    pub(crate) fn hand_on<T: Taker>(&self, out: &mut [u8]) -> Option<T::Answer>
        requires { T.fits out.old }
        ensures answer { result ≡ option_map T.answers (apdu_of self.now) }
        ensures left { out.new ≡ left_for T.leaves (apdu_of self.now) out.old }
    {
        let id = InvokeId::new(self.id)?;
        match Kind::try_from(self.kind).ok()? {
            Kind::Invoke => self.hand_invoke::<T>(id, out),
            Kind::ReturnResult => self.hand_result::<T>(id, out),
            Kind::ReturnError if self.operation == 0 => self.hand_error::<T>(id, out),
            Kind::Reject if self.operation == 0 => self.hand_reject::<T>(id, out),
            _ => None,
        }
    }
}

// The APDU that they make.
impl TryFrom<&Fields> for Apdu {
    type Error = Refusal;

    ghost try_from_gives = { λ fields answer. answer ≡ ok_or (apdu_of fields.now) Garbled };

    fn try_from(fields: &Fields) -> Result<Apdu, Refusal> {
        match fields.hand_on::<Kept>(&mut []) {
            Some(apdu) => Ok(apdu),
            None => Err(Refusal::Garbled),
        }
    }
}
