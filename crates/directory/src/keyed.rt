ghost use Rattle.std.specs.Prelude.{◌≡◌, ℕ, ◌<◌, length, IfSome, nat_eq};
ghost use Rattle.directory.specs.Found.{first_at, first_with};

/// A record with a key.
pub trait Keyed {
    ghost keyed: { Self → ℕ };

    /// The key by which it is found.
    fn key(&self) -> u64
        ensures { result ≡ keyed self.now };
}

/// A record type with a value that tells nothing: the place that removing frees holds it.
pub trait Blank {
    ghost blanked: { Self };

    /// That value.
    fn blank() -> Self
        ensures { result ≡ blanked };
}

/// The place of the first record with the key.
pub fn lookup<R: Keyed>(records: &[R], key: u64) -> Option<usize>
    ensures value { result ≡ first_at nat_eq R.keyed records.now key }
    ensures within { IfSome result (λ i. i < length records.now) }
{
    records.iter().position(|item| item.key() == key)
}

/// The first record with the key.
pub fn fetch<R: Keyed + Copy>(records: &[R], key: u64) -> Option<R>
    ensures { result ≡ first_with nat_eq R.keyed records.now key }
{
    let place = lookup(records, key)?;
    Some(records[place])
}
