//! Decimal numbers without leading zeros.

ghost use Rattle.std.specs.Prelude.{◌≡◌, true};
ghost use Rattle.std.specs.Char.{is_ascii_digit};
ghost use Rattle.std.specs.List.{list_all};
ghost use Rattle.misp_types.specs.Numbers.{is_numeral, number_up_to, number_in, is_number};

fn are_digits(text: &[u8]) -> bool
    ensures { result ≡ list_all is_ascii_digit text.now }
{
    text.iter().all(|byte| byte.is_ascii_digit())
}

fn is_numeral(text: &[u8]) -> bool
    ensures { result ≡ is_numeral text.now }
{
    match text {
        [] => false,
        [b'0', _, ..] => false,
        [_, ..] => are_digits(text),
    }
}

/// The number that digits write, where it is at most `most`.
fn number_up_to(digits: &[u8], most: u32) -> Option<u64>
    requires digits { list_all is_ascii_digit digits.now ≡ true }
    ensures { result ≡ number_up_to most digits.now }
{
    let mut value: u64 = 0;
    for digit in digits {
        value = 10 * value + u64::from(*digit - b'0');
        if value > u64::from(most) {
            return None;
        }
    }
    Some(value)
}

/// The number that a text says, where it is one from `least` to `most`.
pub(crate) fn number_in(text: &[u8], least: u32, most: u32) -> Option<u64>
    ensures { result ≡ number_in least most text.now }
{
    if !is_numeral(text) {
        return None;
    }
    match number_up_to(text, most) {
        Some(number) if u64::from(least) <= number => Some(number),
        _ => None,
    }
}

pub(crate) fn is_number(text: &[u8], least: u32, most: u32) -> bool
    ensures { result ≡ is_number least most text.now }
{
    number_in(text, least, most).is_some()
}
