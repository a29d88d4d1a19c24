// What the value of a field says.
ghost use Rattle.std.specs.Prelude.{◌≡◌};
ghost use Rattle.std.specs.Option.{option_map};
ghost use Rattle.wire.specs.FieldValues.{one, exact, pair, flag};

/// The byte of a value of one byte.
pub fn byte_in(value: &[u8]) -> Option<u8>
    ensures { result ≡ one value.now }
{
    match value {
        [byte] => Some(*byte),
        _ => None,
    }
}

/// The bytes of a value of exactly N bytes.
pub fn bytes_in<const N: usize>(value: &[u8]) -> Option<[u8; N]>
    ensures { result ≡ exact N value.now }
{
    value.try_into().ok()
}

/// The two parts of a value of exactly N bytes and then M.
pub fn pair_in<const N: usize, const M: usize>(value: &[u8]) -> Option<([u8; N], [u8; M])>
    ensures { result ≡ pair N M value.now }
{
    let (first, second) = value.split_at_checked(N)?;
    Some((bytes_in(first)?, bytes_in(second)?))
}

/// Whether a field without a value is there; None where it has one.
pub fn flag_in(value: Option<&[u8]>) -> Option<bool>
    ensures { result ≡ flag (option_map (λ x. x.now) value.entry) }
{
    match value {
        None => Some(false),
        Some(value) => value.is_empty().then_some(true),
    }
}
