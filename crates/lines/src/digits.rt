// Digits and letters, each way. They stay functions of our own: a promise says of each which byte it gives, and std promises no
// text.
ghost use Rattle.std.specs.Prelude.{◌≡◌};
ghost use Rattle.lines.specs.Digits.{decimal_in};
ghost use Rattle.lines.specs.Line.{kind_in, letter_of};
ghost use Rattle.lines.specs.Promises.{HexDigitPromise, ThreeDigitsPromise, WorthOfPromise};

// The last hex digit of a number: `0` to `9`, or `A` to `F`.
#[tactic(auto, unfolding(crate::specs::Digits::digit))]
pub fn hex_digit(number: u8) -> u8
    ensures { HexDigitPromise number result }
{
    if number % 16 < 10 {
        b'0' + number % 16
    } else {
        b'A' - 10 + number % 16
    }
}

// What a byte is worth as an upper-case hex digit, where it is one.
#[tactic(auto, unfolding(crate::specs::Digits::worth_of))]
pub fn worth_of(byte: u8) -> Option<u8>
    ensures { WorthOfPromise byte result }
{
    match byte {
        b'0'..=b'9' => Some(byte - b'0'),
        b'A'..=b'F' => Some(byte - b'A' + 10),
        _ => None,
    }
}

// What a byte is worth as a decimal digit, where it is one.
pub fn decimal_worth(byte: u8) -> Option<u8>
    ensures { result ≡ decimal_in byte }
{
    match worth_of(byte) {
        Some(worth) if worth < 10 => Some(worth),
        _ => None,
    }
}

// The number that three decimal digits say; any other word says none.
#[tactic(auto, unfolding(crate::specs::Digits::are_three, crate::specs::Digits::three_digits, crate::specs::Digits::three_say))]
pub fn three_digits(word: &[u8]) -> Option<u16>
    ensures { ThreeDigitsPromise word.now result }
{
    if word.len() != 3 {
        return None;
    }
    let hundreds = decimal_worth(word[0])? as u16;
    let tens = decimal_worth(word[1])? as u16;
    let ones = decimal_worth(word[2])? as u16;
    Some(hundreds * 100 + tens * 10 + ones)
}

// The letter of a kind, by the number that `Sent` carries.
#[tactic(auto, unfolding(crate::specs::Line::letter_of))]
pub fn letter_for(kind: u8) -> u8
    ensures { result ≡ letter_of kind }
{
    match kind {
        0 => b'I',
        1 => b'D',
        2 => b'S',
        _ => b'R',
    }
}

// The kind of a letter, where it has one.
#[tactic(auto, unfolding(crate::specs::Line::kind_of))]
pub fn kind_of(letter: u8) -> Option<u8>
    ensures { result ≡ kind_in letter }
{
    match letter {
        b'I' => Some(0),
        b'D' => Some(1),
        b'S' => Some(2),
        b'R' => Some(3),
        _ => None,
    }
}
