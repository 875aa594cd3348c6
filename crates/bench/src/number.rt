// Numbers as a script writes them, digit by digit, of any length.
ghost use Rattle.std.specs.Prelude.{◌≡◌, min};
ghost use Rattle.bench.specs.Number.{most_value, more_decimal, hex_value};

// A number with one digit more behind it; a number too large for its type stays the largest. Ruled
// out: a large number that wraps to a small one; leading zeros that count.
pub fn more_decimal(value: u32, digit: u8) -> u32
    ensures { result ≡ more_decimal value digit }
{
    value.saturating_mul(10).saturating_add(digit as u32)
}

// What a hexadecimal digit of either case is worth. Ruled out: `g` taken; `A` refused.
#[tactic(auto, using(std::proofs::lemmas::Bool::Decides::nat_tests), unfolding(crate::specs::Number::hex_value))]
pub fn hex_value(b: u8) -> Option<u8>
    ensures { result ≡ hex_value b }
{
    match b {
        b'0'..=b'9' => Some(b - b'0'),
        b'a'..=b'f' => Some(b - b'a' + 10),
        b'A'..=b'F' => Some(b - b'A' + 10),
        _ => None,
    }
}

// A number for a smaller type; one too large for it is the largest. One line for each type: one for both would need a
// trait for the largest.
pub fn within_u16(value: u32) -> u16
    ensures { result ≡ min value 65535 }
{
    u16::try_from(value).unwrap_or(u16::MAX)
}

pub fn within_u32(value: usize) -> u32
    ensures { result ≡ min value most_value }
{
    u32::try_from(value).unwrap_or(u32::MAX)
}
