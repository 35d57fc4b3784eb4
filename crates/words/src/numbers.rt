// Numbers as decimal digits.
ghost use Rattle.std.specs.Prelude.{◌≡◌};
ghost use Rattle.words.specs.Numbers.{number as number_of};

// The number of 32 bits that decimal digits write, with any number of leading zeros; none where a character is no digit or the number is too large.
pub fn counter(text: &[u8]) -> Option<u32>
    ensures { result ≡ number_of text.now }
{
    let mut number: u32 = 0;
    for letter in text {
        if !letter.is_ascii_digit() {
            return None;
        }
        number = number
            .checked_mul(10)?
            .checked_add(u32::from(*letter - b'0'))?;
    }
    Some(number)
}
