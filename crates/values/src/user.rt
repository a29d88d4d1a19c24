// Users, by their numbers.
ghost use Rattle.std.specs.Prelude.{◌≡◌, ◌+◌, ◌/◌, ◌%◌, ◌^◌, ◌<◌, ◌≤◌, true, [], ◌∷◌, length, IfSome};
ghost use Rattle.wire.specs.Digits.{digits};
ghost use Rattle.wire.specs.Fields.{head_size, field};
ghost use Rattle.wire.specs.Fronts.{HasRoom, InOneBuffer, Wrote};
ghost use Rattle.values.specs.User.{count_unit, most_digits, number, user_number, user_digits, zero_user, is_user, user_with_key};
ghost use Rattle.values.specs.Laws.{NoTwoWithOneKey, ZerosDiffer};

use std::marker::Model;
use wire::{Writer, put_digits};

/// A user, by a number of 1 to 15 digits, leading zeros counted. It is kept as count of digits × 10^15 + value, so that 0
/// and 00 differ, and that is its key.
#[derive(Clone, Copy, PartialEq, Eq)]
pub struct User {
    key: u64,
}

// A contract sees a user as its key.
impl Model for User {
    ghost use Rattle.std.specs.Prelude.{◌≡◌, ℕ, true};
    ghost use Rattle.values.specs.User.{is_user};

    ghost Value = { ℕ };

    ghost view = { λ user. user.key };

    ghost invariant = { λ user. is_user user.key ≡ true };

    ghost inverse = { λ key. record { key = key } };
}

// What a count of digits is multiplied by: 10^15.
const COUNT_UNIT: u64 = 1_000_000_000_000_000;

// The most digits of a number.
const MOST_DIGITS: usize = 15;

// The number that at most 15 digits write.
fn number_of(text: &[u8]) -> Option<u64>
    requires { length text.now ≤ most_digits }
    ensures value { result ≡ number 0 text.now }
    ensures bound { IfSome result (λ n. n < 10 ^ length text.now) }
{
    let mut n: u64 = 0;
    for c in text {
        match *c {
            b'0'..=b'9' => n = n * 10 + (*c - b'0') as u64,
            _ => return None,
        }
    }
    Some(n)
}

// Whether a number is a user's key.
fn is_user(key: u64) -> bool
    ensures { result ≡ is_user key }
{
    let count = key / COUNT_UNIT;
    (1..=MOST_DIGITS as u64).contains(&count) && key % COUNT_UNIT < 10u64.pow(count as u32)
}

// The user whose number some text writes.
fn parse(text: &[u8]) -> Option<User>
    ensures { result ≡ user_number text.now }
{
    if text.is_empty() || text.len() > MOST_DIGITS {
        return None;
    }
    let n = number_of(text)?;
    Some(User {
        key: text.len() as u64 * COUNT_UNIT + n,
    })
}

impl User {
    /// The user whose number these bytes write; None where they are not 1 to 15 ASCII digits.
    pub fn from_digits(text: &[u8]) -> Option<User>
        ensures value { result ≡ user_number text.now }
        ensures apart { NoTwoWithOneKey }
        ensures zeros { ZerosDiffer }
    {
        parse(text)
    }

    /// The user with a key; None where no user has it.
    pub fn from_key(key: u64) -> Option<User>
        ensures { result ≡ user_with_key key }
    {
        if !is_user(key) {
            return None;
        }
        Some(User { key })
    }

    /// The user whose number is the one digit 0.
    pub fn zero() -> User
        ensures value { result ≡ zero_user }
        ensures digits { user_digits zero_user ≡ 0x30 ∷ [] }
    {
        User { key: COUNT_UNIT }
    }

    /// Its key.
    pub fn key(self) -> u64
        ensures value { result ≡ self }
        ensures lawful { is_user self ≡ true }
    {
        let User { key } = self;
        key
    }

    /// How many digits it has, 1 to 15.
    #[inline(always)]
    pub fn count(self) -> usize
        ensures value { result ≡ self / count_unit }
        ensures count { result ≡ length (user_digits self) }
        ensures bound { result ≤ most_digits }
    {
        (self.key / COUNT_UNIT) as usize
    }

    /// Puts the last of its digits, in ASCII, as many as there are places; with a place for each digit, all of them.
    pub fn put(self, places: &mut [u8])
        ensures last { places.new ≡ digits (length places.old) (self % count_unit) }
        ensures all { length places.old ≡ length (user_digits self) → places.new ≡ user_digits self }
    {
        put_digits(places, self.key % COUNT_UNIT)
    }

    /// Writes its digits as a field of at most 18 bytes in all.
    #[inline(always)]
    pub fn write(self, tag: u8, writer: &mut Writer<'_>)
        requires { HasRoom writer.old (head_size + most_digits) }
        ensures same_buffer { InOneBuffer writer.old writer.new }
        ensures wrote { Wrote writer.old (field tag (user_digits self)) writer.new }
        ensures bound { length (user_digits self) ≤ most_digits }
        ensures lawful { is_user self ≡ true }
    {
        writer.digits(tag, self.count(), self.key % COUNT_UNIT);
    }
}
