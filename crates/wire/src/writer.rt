// Fields written one after another into a lent buffer.
ghost use Rattle.std.specs.Prelude.{◌≡◌, ◌+◌, ◌<◌, [], ◌∷◌, ◌++◌, length};
ghost use Rattle.wire.specs.Digits.{digits};
ghost use Rattle.wire.specs.Fields.{head_size, field, two, optional_field, flagged};
ghost use Rattle.wire.specs.Fronts.{count_of, buffer_of, lender_of, HasRoom, InOneBuffer, Wrote};

use crate::digits::put_digits;

/// A lent buffer, and the place in it where the next field goes. The caller lends the memory, so that writing cannot fail
/// for want of it; each method asks for the room that it takes.
#[derive(Drop)]
pub struct Writer<'a> {
    out: &'a mut [u8],
    at: usize,
}

impl<'a> Writer<'a> {
    /// A writer at the front of the buffer.
    pub fn new(out: &'a mut [u8]) -> Writer<'a>
        ensures same_reference { lender_of result ≡ out.entry.ghost_name }
        ensures buffer { buffer_of result ≡ out.old }
        ensures front { count_of result ≡ 0 }
    {
        Writer { out, at: 0 }
    }

    /// How many bytes it has written.
    pub fn count(&self) -> usize
        ensures { result ≡ count_of self.now }
    {
        let count = self.at;
        count
    }

    /// Some bytes, as they are: the value of a field behind its head, or a part of it.
    pub fn bytes(&mut self, bytes: &[u8])
        requires { HasRoom self.old (length bytes.now) }
        ensures same_buffer { InOneBuffer self.old self.new }
        ensures wrote { Wrote self.old bytes.now self.new }
    {
        let end = self.at + bytes.len();
        self.out[self.at..end].copy_from_slice(bytes);
        self.at = end;
    }

    /// The tag of a field and the length of its value, two bytes, high byte first.
    pub fn head(&mut self, tag: u8, length: usize)
        requires fits { HasRoom self.old head_size }
        requires short { length < 65536 }
        ensures same_buffer { InOneBuffer self.old self.new }
        ensures wrote { Wrote self.old (tag ∷ two length) self.new }
    {
        let [high, low] = (length as u16).to_be_bytes();
        self.bytes(&[tag, high, low]);
    }

    /// A field.
    pub fn field(&mut self, tag: u8, value: &[u8])
        requires fits { HasRoom self.old (length (field tag value.now)) }
        requires short { length value.now < 65536 }
        ensures same_buffer { InOneBuffer self.old self.new }
        ensures wrote { Wrote self.old (field tag value.now) self.new }
    {
        self.head(tag, value.len());
        self.bytes(value);
    }

    /// A field of one byte.
    pub fn byte(&mut self, tag: u8, byte: u8)
        requires { HasRoom self.old (head_size + 1) }
        ensures same_buffer { InOneBuffer self.old self.new }
        ensures wrote { Wrote self.old (field tag (byte ∷ [])) self.new }
    {
        self.field(tag, &[byte]);
    }

    /// A field of two parts.
    #[inline(always)]
    pub fn pair(&mut self, tag: u8, first: &[u8], second: &[u8])
        requires fits { HasRoom self.old (head_size + (length first.now + length second.now)) }
        requires short { length first.now + length second.now < 65536 }
        ensures same_buffer { InOneBuffer self.old self.new }
        ensures wrote { Wrote self.old (field tag (first.now ++ second.now)) self.new }
    {
        self.head(tag, first.len() + second.len());
        self.bytes(first);
        self.bytes(second);
    }

    /// A field of the last `count` digits of a number, in ASCII, leading zeros included.
    #[inline(always)]
    pub fn digits(&mut self, tag: u8, count: usize, number: u64)
        requires fits { HasRoom self.old (head_size + count) }
        requires short { count < 65536 }
        ensures same_buffer { InOneBuffer self.old self.new }
        ensures wrote { Wrote self.old (field tag (digits count number)) self.new }
    {
        self.head(tag, count);
        let end = self.at + count;
        put_digits(&mut self.out[self.at..end], number);
        self.at = end;
    }

    /// A field without a value, if it is to be there.
    pub fn flag(&mut self, tag: u8, there: bool)
        requires { HasRoom self.old head_size }
        ensures same_buffer { InOneBuffer self.old self.new }
        ensures wrote { Wrote self.old (optional_field tag (flagged there)) self.new }
    {
        if there {
            self.field(tag, &[]);
        }
    }
}
