// Numbers in several bytes, high byte first.
ghost use Rattle.std.specs.Prelude.{◌≡◌, ◌+◌, ◌≤◌, length};
ghost use Rattle.wire.specs.Fields.{two};
ghost use Rattle.records.specs.Numbers.{number, in_bytes};
ghost use Rattle.records.specs.Tape.{four_at};

// The number in the four bytes from a place on.
#[inline(always)]
pub(crate) fn four_at(bytes: &[u8], at: usize) -> u32
    requires { at + 4 ≤ length bytes.now }
    ensures { result ≡ four_at at bytes.now }
{
    u32::from_be_bytes([bytes[at], bytes[at + 1], bytes[at + 2], bytes[at + 3]])
}

// The number in eight bytes.
#[inline(always)]
pub(crate) fn eight(bytes: [u8; 8]) -> u64
    ensures { result ≡ number bytes }
{
    u64::from_be_bytes(bytes)
}

// The number in two bytes.
#[inline(always)]
pub(crate) fn two(bytes: [u8; 2]) -> u16
    ensures { result ≡ number bytes }
{
    u16::from_be_bytes(bytes)
}

// A number in eight bytes.
pub(crate) fn in_eight(number: u64) -> [u8; 8]
    ensures { result ≡ in_bytes 8 number }
{
    number.to_be_bytes()
}

// A number in four bytes.
pub(crate) fn in_four(number: u32) -> [u8; 4]
    ensures { result ≡ in_bytes 4 number }
{
    number.to_be_bytes()
}

// A number in two bytes.
#[inline(always)]
pub(crate) fn in_two(number: u16) -> [u8; 2]
    ensures { result ≡ two number }
{
    number.to_be_bytes()
}
