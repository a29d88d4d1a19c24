// The digits of a user number, in words.
ghost use Rattle.std.specs.Prelude.{◌≡◌, is_some};
ghost use Rattle.values.specs.User.{user_number};

use std::{fmt, str};
use values::User;

/// Bytes that stand where a user number belongs. Where they are none, they are only counted: they may be a key's.
#[derive(Clone, Copy)]
pub struct Digits<'a>(pub &'a [u8]);

impl Digits<'_> {
    /// Whether they are a user number: 1 to 15 digits.
    pub fn is_user(&self) -> bool
        ensures { result ≡ is_some (user_number self.now.0.now) }
    {
        User::from_digits(self.0).is_some()
    }
}

impl fmt::Display for Digits<'_> {
    fn fmt<W: fmt::Write>(&self, f: &mut fmt::Formatter<W>) -> fmt::Result {
        let size = self.0.len();
        match str::from_utf8(self.0) {
            Ok(digits) if self.is_user() => f.write_str(digits),
            _ if size == 0 => write!(f, "without digits"),
            _ if size == 1 => write!(f, "of 1 byte that is no user number"),
            _ => write!(f, "of {size} bytes that are no user number"),
        }
    }
}
