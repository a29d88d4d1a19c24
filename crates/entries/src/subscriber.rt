// Subscribers: the users that this exchange serves as Home or as server, and where the parameters of each are.
ghost use Rattle.std.specs.Prelude.{◌≡◌};
ghost use Rattle.std.specs.Option.{ok_or};
ghost use Rattle.directory.specs.Contents.{contents, places};
ghost use Rattle.entries.specs.Entries.{adding_answer, adding_left, with_entry, removing_answer, removing_left, without_entry};
ghost use Rattle.entries.specs.Subscriber.{place_number, place_of, subscriber_key, no_subscriber, subscriber_of, dialled_key};

use directory::{Blank, Directory, Keyed};
use refusal::Refusal;
use values::{User, UserKey};
use wire::UnknownNumber;

/// Where the parameters of a user are.
#[derive(Clone, Copy, PartialEq, Eq, Debug)]
pub enum KeyPlace {
    /// Nowhere.
    NoParameters = 0,
    /// In this exchange.
    Here = 1,
    /// In the authentication server.
    Server = 2,
}

impl From<KeyPlace> for u8 {
    ghost from_gives = { λ place n. n ≡ place_number place };

    fn from(place: KeyPlace) -> u8 {
        place as u8
    }
}

impl TryFrom<u8> for KeyPlace {
    type Error = UnknownNumber;

    ghost try_from_gives = { λ n answer. answer ≡ ok_or (place_of n) (record { 0 = n }) };

    fn try_from(number: u8) -> Result<KeyPlace, UnknownNumber> {
        match number {
            0 => Ok(KeyPlace::NoParameters),
            1 => Ok(KeyPlace::Here),
            2 => Ok(KeyPlace::Server),
            _ => Err(UnknownNumber(number)),
        }
    }
}

/// A user, where its parameters are, and its key. It has no Debug, so that its key is never written by one.
#[derive(Clone, Copy)]
pub struct Subscriber {
    /// The user, by which it is found.
    pub user: User,
    /// Where the user's parameters are.
    pub key_place: KeyPlace,
    /// The user's key, of 16 bytes, from which parameters are made where they are in this exchange.
    pub user_key: UserKey,
}

impl Keyed for Subscriber {
    ghost keyed = { subscriber_key };

    fn key(&self) -> u64 {
        self.user.key()
    }
}

// The key in a place that is free.
const NO_KEY: UserKey = [0; 16];

// A place that is free holds the user 0, without parameters, and a key of zero bytes.
impl Blank for Subscriber {
    ghost blanked = { no_subscriber };

    fn blank() -> Subscriber {
        Subscriber {
            user: User::zero(),
            key_place: KeyPlace::NoParameters,
            user_key: NO_KEY,
        }
    }
}

impl Subscriber {
    // The subscriber with some digits, a place by its number, and a user's key.
    fn new(digits: &[u8], place: u8, user_key: UserKey) -> Result<Subscriber, Refusal>
        ensures { result ≡ subscriber_of digits.now place user_key }
    {
        let user = User::from_digits(digits).ok_or(Refusal::Misdialled)?;
        let key_place = KeyPlace::try_from(place).or(Err(Refusal::Misdialled))?;
        Ok(Subscriber {
            user,
            key_place,
            user_key,
        })
    }
}

/// Adds a subscriber. Refused with 4 where the digits write no user number or the place is above 2, with 7 where the
/// user is there, with 8 where no place is free; a refusal changes nothing.
pub fn add_subscriber(
    subscribers: &mut Directory<'_, Subscriber>,
    digits: &[u8],
    place: u8,
    user_key: UserKey,
) -> Result<(), Refusal>
    ensures answer { result
        ≡ adding_answer subscriber_key (places subscribers.old) (contents subscribers.old)
        (subscriber_of digits.now place user_key) }
    ensures list { contents subscribers.new
        ≡ adding_left subscriber_key (places subscribers.old) (contents subscribers.old)
        (subscriber_of digits.now place user_key) }
    ensures size { places subscribers.new ≡ places subscribers.old }
    ensures whole { subscribers.new
        ≡ with_entry subscriber_key subscribers.old (subscriber_of digits.now place user_key) }
{
    subscribers.add(Subscriber::new(digits, place, user_key)?)
}

/// Removes the subscriber with some digits, and erases its key. Refused with 4 where the digits write no user number,
/// with 6 where the user is not there; a refusal changes nothing.
pub fn remove_subscriber(
    subscribers: &mut Directory<'_, Subscriber>,
    digits: &[u8],
) -> Result<(), Refusal>
    ensures answer { result
        ≡ removing_answer subscriber_key (contents subscribers.old) (dialled_key digits.now) }
    ensures list { contents subscribers.new
        ≡ removing_left subscriber_key (contents subscribers.old) (dialled_key digits.now) }
    ensures size { places subscribers.new ≡ places subscribers.old }
    ensures whole { subscribers.new
        ≡ without_entry subscriber_key no_subscriber subscribers.old (dialled_key digits.now) }
{
    let user = User::from_digits(digits).ok_or(Refusal::Misdialled)?;
    subscribers.remove(user.key())
}
