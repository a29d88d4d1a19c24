// A row of fields, each a tag, a length of two bytes and a value.
ghost use Rattle.std.specs.Prelude.{◌≡◌, length, Some, None, MatchOption};
ghost use Rattle.std.specs.Option.{option_map};
ghost use Rattle.std.specs.Iterator.{at_most};
ghost use Rattle.wire.specs.Fields.{next_field, value, after, unread, is_nothing};

/// A tag and its value, of at most 65,535 bytes.
#[derive(Clone, Copy)]
pub struct Field<'a> {
    /// Which field it is: one byte.
    pub tag: u8,
    /// What stands behind its length.
    pub value: &'a [u8],
}

/// The bytes that are not read yet (`unread`), from which fields are taken one by one.
#[derive(Drop)]
pub struct Reader<'a> {
    rest: &'a [u8],
}

impl<'a> Reader<'a> {
    /// A reader of these bytes, from the first on.
    pub fn new(bytes: &'a [u8]) -> Reader<'a>
        ensures { unread result ≡ bytes.now }
    {
        Reader { rest: bytes }
    }

    /// The value of the field with this tag, if it is the next one; the reader then stands behind it.
    pub fn take_value(&mut self, tag: u8) -> Option<&'a [u8]>
        ensures value { option_map (λ x. x.now) result ≡ value tag (unread self.old) }
        ensures after { unread self.new ≡ after tag (unread self.old) }
    {
        let mut ahead = Reader { rest: self.rest };
        let field = ahead.next().filter(|field| field.tag == tag)?;
        *self = ahead;
        Some(field.value)
    }

    /// Whether nothing is left to read.
    pub fn is_done(&self) -> bool
        ensures { result ≡ is_nothing (unread self.now) }
    {
        self.rest.is_empty()
    }
}

// The fields one by one, each as a part of the bytes. Where one is cut the reader ends and stays.
impl<'a> Iterator for Reader<'a> {
    type Item = Field<'a>;

    ghost next_gives = { λ before result left.
        MatchOption result
        ((next_field (unread before) ≡ None) × (unread left ≡ unread before))
        (λ f.
        next_field (unread before)
        ≡ Some (record { tag = f.tag; value = f.value.now; rest = unread left })) };

    ghost remaining = { λ reader. at_most (length (unread reader)) };

    fn next(&mut self) -> Option<Field<'a>> {
        let ([tag, high, low], body) = self.rest.split_first_chunk::<3>()?;
        let size = usize::from(u16::from_be_bytes([*high, *low]));
        let (value, after) = body.split_at_checked(size)?;
        self.rest = after;
        Some(Field { tag: *tag, value })
    }
}
