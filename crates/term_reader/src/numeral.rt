//! Numerals.

ghost use Rattle.std.specs.Prelude.{◌≡◌};
ghost use Rattle.std.specs.Char.{digit_value};
ghost use Rattle.smtlib_terms.specs.Reading.{numeral};
ghost use Rattle.operator_arguments.specs.Measured.{Means, meaning_of};

use mbqi_terms::Sort;
use mbqi_values::{FaultKind, ReadError};
use measured_terms::MeasuredTerm;
use operator_arguments::MeasuredMeaning;
use smtlib_terms::refused;

/// The greatest numeral of the profile.
const GREATEST: u64 = 9_223_372_036_854_775_807;

/// The number that a digit writes.
fn digit_value(digit: u8) -> u64
    ensures { result ≡ digit_value digit }
{
    match digit {
        b'0'..=b'9' => u64::from(digit - b'0'),
        b'A'..=b'Z' => u64::from(digit - b'A') + 10,
        b'a'..=b'z' => u64::from(digit - b'a') + 10,
        _ => 36,
    }
}

/// A numeral. Refused: NumeralTooWide above 2^63 - 1.
#[tactic(auto, using(std::proofs::lemmas::Grind::common_steps, crate::proofs::Numerals::at_least_value))]
pub fn numeral(digits: &[u8]) -> Result<MeasuredMeaning, ReadError>
    ensures { Means meaning_of result (numeral digits.now) }
{
    let mut value: u64 = 0;
    for digit in digits {
        let more = digit_value(*digit);
        // neither the product nor the sum may wrap
        if value > (GREATEST - more) / 10 {
            return Err(refused(FaultKind::NumeralTooWide));
        }
        value = value * 10 + more;
    }
    Ok(MeasuredMeaning::Term(Sort::Int, MeasuredTerm::number(i128::from(value))))
}
