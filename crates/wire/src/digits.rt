// Numbers in ASCII digits.
ghost use Rattle.std.specs.Prelude.{◌≡◌, ◌+◌, ◌%◌, length};
ghost use Rattle.wire.specs.Digits.{digits};

// The last digit of a number.
fn last_digit(number: u64) -> u8
    ensures { result ≡ 48 + number % 10 }
{
    b'0' + (number % 10) as u8
}

/// Puts as many digits of a number as there are places, in ASCII, the last digit in the last place; leading zeros are included.
pub fn put_digits(places: &mut [u8], number: u64)
    ensures { places.new ≡ digits (length places.old) number }
{
    let mut number = number;
    for i in (0..places.len()).rev() {
        places[i] = last_digit(number);
        number /= 10;
    }
}
