// Number words: decimal, with no leading zeros.
ghost use Rattle.std.specs.Prelude.{◌≡◌};
ghost use Rattle.shared.specs.Answers.{optional};
ghost use Rattle.shared.specs.Tokens.{number_in};
ghost use Rattle.shared_text.specs.Numbers.{fitting_value};

// The value of decimal digits, if a `u32` holds it; std's `parse` is for text, and takes a plus in front.
#[tactic(auto, using(crate::proofs::Words::fitting_value_none))]
fn read_digits(digits: &[u8]) -> Option<u32>
    ensures { optional result ≡ fitting_value digits.now }
{
    let mut value: u32 = 0;
    for &byte in digits {
        let digit = char::from(byte).to_digit(10)?;
        value = value.checked_mul(10)?.checked_add(digit)?;
    }
    Some(value)
}

// The number that `word` is, if it is one of `low..=high`.
pub fn read_number(word: &[u8], low: u32, high: u32) -> Option<u32>
    ensures { optional result ≡ number_in low high word.now }
{
    match word {
        [] | [b'0', _, ..] => None,
        _ => read_digits(word).filter(|value| (low..=high).contains(value)),
    }
}
