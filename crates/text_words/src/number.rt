ghost use Rattle.std.specs.Prelude.{◌≡◌};
ghost use Rattle.text_words.specs.Reading.{starts_number, with_digit, with_digits, number_of};

fn with_digit(number: u64, digit: u8) -> Option<u64>
    ensures { result ≡ with_digit number digit }
{
    if digit < b'0' || digit > b'9' {
        return None;
    }
    number.checked_mul(10)?.checked_add(u64::from(digit - b'0'))
}

#[tactic(auto, unfolding(crate::specs::Reading::with_digits))]
fn digits_of(word: &[u8]) -> Option<u64>
    ensures { result ≡ with_digits 0 word.now }
{
    let mut number = 0u64;
    let mut rest = word;
    while let [digit, more @ ..] = rest {
        number = with_digit(number, *digit)?;
        rest = more;
    }
    Some(number)
}

fn starts_number(word: &[u8]) -> bool
    ensures { result ≡ starts_number word.now }
{
    match word {
        [] => false,
        [_] => true,
        [first, _, ..] => *first != b'0',
    }
}

#[tactic(auto, unfolding(crate::specs::Reading::number_of))]
pub fn read_number(word: &[u8]) -> Option<u64>
    ensures { result ≡ number_of word.now }
{
    if starts_number(word) {
        digits_of(word)
    } else {
        None
    }
}
