// Decimal numbers as bytes.
ghost use Rattle.std.specs.Prelude.{◌≡◌, ◌<◌};
ghost use Rattle.lines.specs.Definitions.Numbers.{is_digit, leading_zero, digits_from, number};

// The digits "0" to "9".
pub const ZERO: u8 = b'0';

const NINE: u8 = b'9';

#[tactic(auto, unfolding(crate::specs::Definitions::Numbers::is_digit))]
fn is_digit(c: u8) -> bool
    ensures { result ≡ is_digit c }
{
    ZERO <= c && c <= NINE
}

// "no leading zeros"
#[tactic(auto, using(crate::specs::Laws::Numbers::leading_short, crate::specs::Laws::Numbers::leading_long, std::proofs::lemmas::Bool::Decides::nat_tests))]
fn leading_zero(word: &[u8]) -> bool
    ensures { result ≡ leading_zero word.now }
{
    matches!(word, [ZERO, _, ..])
}

// The number of a row of digits; none at a byte that is no digit, or where the number is larger than 4,294,967,295.
fn read_digits(word: &[u8]) -> Option<u32>
    ensures { result ≡ digits_from 0 word.now }
{
    let mut v: u32 = 0;
    for c in word {
        if !is_digit(*c) {
            return None;
        }
        v = v.checked_mul(10)?.checked_add(u32::from(*c - ZERO))?;
    }
    Some(v)
}

// The number that a word is, if it is one.
#[tactic(auto, using(crate::specs::Laws::Numbers::number_empty, crate::specs::Laws::Numbers::number_leading, crate::specs::Laws::Numbers::number_digits))]
pub fn read_number(word: &[u8]) -> Option<u32>
    ensures { result ≡ number word.now }
{
    if word.is_empty() || leading_zero(word) {
        return None;
    }
    read_digits(word)
}
