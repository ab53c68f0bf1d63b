ghost use Rattle.std.specs.Prelude.{◌≡◌, min};
ghost use Rattle.std.specs.Option.{option_map};
ghost use Rattle.bully_table.specs.Numeral.{number_of};

// The number that a greater one is told as.
const MOST: u32 = 65535;

/// The number that a text spells: `0`, or decimal digits without a leading zero; none where it has another
/// form. A number above 65,535 is told as 65,535.
pub fn read_number(text: &[u8]) -> Option<u16>
    ensures { result ≡ option_map (λ n. min n 65535) (number_of text.now) }
{
    let leads_with_zero = text.len() > 1 && text[0] == b'0';
    if text.is_empty() || leads_with_zero {
        return None;
    }
    let mut number: u32 = 0;
    for digit in text {
        if !digit.is_ascii_digit() {
            return None;
        }
        number = (10 * number + u32::from(*digit - b'0')).min(MOST);
    }
    Some(number as u16)
}
