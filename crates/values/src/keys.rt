// Values that are bytes and nothing more.

/// What an algorithm gives to a challenge under a session key.
pub type Response = [u8; 4];

/// What an algorithm makes of a user's key and a parameter.
pub type SessionKey = [u8; 16];

/// What a session key is computed with, beside the user's key.
pub type Parameter = [u8; 8];

/// The key that authenticates a user, which the user's terminal has too.
pub type UserKey = [u8; 16];
