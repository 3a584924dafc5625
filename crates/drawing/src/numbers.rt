// Numbers in fields of a fixed width.
ghost use Rattle.std.specs.Prelude.{◌≡◌, ◌≤◌, ◌<◌};
ghost use Rattle.drawing.specs.Numbers.{place_of, places};

use lines::hex_digit;

// The place of a number that has so many places after it: the last is always a digit, any other this byte where the number is
// smaller.
fn place_of(number: usize, after: usize, blank: u8) -> u8
    requires { after < 5 }
    ensures { result ≡ place_of blank number after }
{
    let power = 10usize.pow(after as u32);
    if after == 0 {
        hex_digit((number % 10) as u8)
    } else if number < power {
        blank
    } else {
        hex_digit((number / power % 10) as u8)
    }
}

// A number's last N places, with this byte before its first digit.
pub fn places<const N: usize>(number: usize, blank: u8) -> [u8; N]
    requires { N ≤ 5 }
    ensures { result ≡ places blank N number }
{
    let mut text = [blank; N];
    for (at, byte) in text.iter_mut().enumerate() {
        *byte = place_of(number, N - 1 - at, blank);
    }
    text
}
