// Text put into any buffer at a position. Each function answers the position after what it put. A piece
// that there is no room for is left out.
ghost use Rattle.std.specs.Prelude.{◌≡◌, ◌<◌};
ghost use Rattle.text.specs.Text.{filled, put, piece, decimal, is_plain, escaped_byte, escaped};
ghost use Rattle.text.specs.Text.{hexadecimal as Text·hexadecimal};

// Ruled out: a piece cut short; one that just fits left out.
pub fn put_bytes(out: &mut [u8], at: usize, text: &[u8]) -> usize
    ensures { filled result out.new ≡ put (piece text.now) (filled at out.old) }
{
    if out.len() < at {
        return out.len();
    }
    if out.len() - at < text.len() {
        return at;
    }
    words::put_slice(out, at, text);
    at + text.len()
}

// Ruled out: digits turned round; 0 as nothing.
pub fn put_decimal(out: &mut [u8], at: usize, n: u32) -> usize
    ensures { filled result out.new ≡ put (decimal n) (filled at out.old) }
{
    let mut digits = [0u8; 20];
    let k = io::decimal(n as u64, &mut digits);
    put_bytes(out, at, &digits[0..k])
}

// A printable byte stands for itself, but for the quote and the backslash.
fn is_plain(b: u8) -> bool
    ensures { result ≡ is_plain b }
{
    (b' '..=b'~').contains(&b) && b != b'"' && b != b'\\'
}

// Not char::from_digit: its Option<char> would have to be taken apart and cut to a byte.
fn hexadecimal(d: u8) -> u8
    requires { d < 16 }
    ensures { result ≡ Text·hexadecimal d }
{
    if d < 10 { b'0' + d } else { b'a' - 10 + d }
}

// A byte as itself, or as \x and two hexadecimal digits.
fn put_escaped_byte(out: &mut [u8], at: usize, b: u8) -> usize
    ensures { filled result out.new ≡ put (escaped_byte b) (filled at out.old) }
{
    if is_plain(b) {
        return put_bytes(out, at, &[b]);
    }
    put_bytes(
        out,
        at,
        &[b'\\', b'x', hexadecimal(b / 16), hexadecimal(b % 16)],
    )
}

// Ruled out: a quote as itself; a byte left out.
#[tactic(auto, using(crate::proofs::PutLaws::each_goes), unfolding(crate::specs::Text::put))]
pub fn put_escaped(out: &mut [u8], at: usize, bytes: &[u8]) -> usize
    ensures { filled result out.new ≡ put (escaped bytes.now) (filled at out.old) }
{
    let mut at = at;
    for &b in bytes {
        at = put_escaped_byte(out, at, b);
    }
    at
}
