// Reading and writing APDUs from C.
#![tactic(auto)]

ghost use Rattle.std.specs.Prelude.{◌≡◌};
ghost use Rattle.apdu.specs.Decode.{received_as};
ghost use Rattle.apdu_c.specs.Calls.{read_status, read_fields, write_result, write_status, write_out, write_used};
ghost use Rattle.apdu_c.specs.Given.{apdu_of};
ghost use Rattle.apdu_c.specs.Laws.{AbsentHasNoSay, FlatReadsBack, GivenIsFlat};

mod fields;
mod flat;
mod given;
mod part;

use apdu::{LEAST_BUFFER, read};
pub use fields::Fields;
use given::Written;
use refusal::Refusal;

/// Sets the struct to the fields of the APDU that the bytes are, and returns 0. Bytes that are no APDU
/// are garbled, also those that are due a reject, and leave the struct as it was.
#[unsafe(no_mangle)]
pub extern "C" fn apdu_read(bytes: &[u8], fields: &mut Fields) -> u8
    ensures value { result ≡ read_status (received_as bytes.now) }
    ensures after { fields.new ≡ read_fields (received_as bytes.now) fields.old }
    ensures back { FlatReadsBack }
{
    match &read(bytes) {
        Ok(apdu) => {
            *fields = Fields::from(apdu);
            0
        }
        Err(_) => Refusal::Garbled.into(),
    }
}

// Writes the APDU that the fields make, and says how long it is. C is handed a number and a length in place of the Result.
fn write_fields(fields: &Fields, out: &mut [u8]) -> Result<usize, Refusal>
    ensures answer { result ≡ write_result (apdu_of fields.now) out.old }
    ensures buffer { out.new ≡ write_out (apdu_of fields.now) out.old }
{
    // The size is looked at first, also where the fields make no APDU.
    if out.len() < LEAST_BUFFER {
        return Err(Refusal::ShortSheet);
    }
    fields.hand_on::<Written>(out).ok_or(Refusal::Garbled)
}

/// Writes the APDU that the fields make to the front of the buffer, whose rest stays as it was, sets
/// `used` to its length, and returns 0. A refusal leaves both as they were: a buffer under 64 bytes
/// is a short sheet, and else fields that make no APDU are garbled.
#[unsafe(no_mangle)]
pub extern "C" fn apdu_write(fields: &Fields, out: &mut [u8], used: &mut usize) -> u8
    ensures value { result ≡ write_status (apdu_of fields.now) out.old }
    ensures buffer { out.new ≡ write_out (apdu_of fields.now) out.old }
    ensures count { used.new ≡ write_used (apdu_of fields.now) out.old used.old }
    ensures kept { GivenIsFlat }
    ensures absent { AbsentHasNoSay }
{
    match write_fields(fields, out) {
        Ok(length) => {
            *used = length;
            0
        }
        Err(refusal) => refusal.into(),
    }
}
