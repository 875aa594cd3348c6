// Numbers of one, two or four bytes, read from a byte slice or stored into it, the lowest byte first: one law
// over the width serves all. Ruled out: the highest byte first; a neighbouring byte changed.
ghost use Rattle.std.specs.Prelude.{◌≡◌, ℕ, ◌+◌, ◌≤◌, Bool, ◌&&◌, leb, length, refl};
ghost use Rattle.std.proofs.lemmas.List.Edits.{sets};
ghost use Rattle.words.specs.Word.{word_at, word_bytes};

pub trait Word: Copy + PartialEq {
    // How many bytes.
    const SIZE: usize;

    ghost SIZE: { ℕ };

    // What stands for 0.
    const ZERO: Self;

    ghost ZERO: { Self };

    // The word of a number, and the number of a word.
    ghost of: { ℕ → Self };

    ghost value: { Self → ℕ };

    fn get(s: &[u8], at: usize) -> Self
        requires { at + SIZE ≤ length s.now }
        ensures { result ≡ of (word_at SIZE s.now at) };

    fn put(out: &mut [u8], at: usize, x: Self)
        requires { at + SIZE ≤ length out.old }
        ensures { out.new ≡ sets out.old at (word_bytes SIZE (value x)) };

    // As the numbers: from low to high. Each type compares by itself: over PartialOrd a law would have to tie its order
    // to the number, three times. Ruled out: a bound itself refused; one bound alone tested.
    fn is_within(self, low: Self, high: Self) -> bool
        ensures { result ≡ leb (value low) (value self) && leb (value self) (value high) };

    // The number of a word gives the word back.
    ghost same: { (x : Self) → of (value x) ≡ x };

    ghost zero: { value ZERO ≡ 0 };
}

impl Word for u8 {
    const SIZE: usize = 1;

    ghost SIZE = { 1 };

    const ZERO: u8 = 0;

    ghost ZERO = { 0 };

    ghost of = { λ x. x };

    ghost value = { λ x. x };

    fn get(s: &[u8], at: usize) -> u8
        requires { at + 1 ≤ length s.now }
        ensures { result ≡ word_at 1 s.now at }
    {
        s[at]
    }

    fn put(out: &mut [u8], at: usize, x: u8)
        requires { at + 1 ≤ length out.old }
        ensures { out.new ≡ sets out.old at (word_bytes 1 x) }
    {
        out[at] = x;
    }

    fn is_within(self, low: u8, high: u8) -> bool {
        (low <= self) & (self <= high)
    }

    ghost same = { λ x. refl };

    ghost zero = { refl };
}

impl Word for u16 {
    const SIZE: usize = 2;

    ghost SIZE = { 2 };

    const ZERO: u16 = 0;

    ghost ZERO = { 0 };

    ghost of = { λ x. x };

    ghost value = { λ x. x };

    fn get(s: &[u8], at: usize) -> u16
        requires { at + 2 ≤ length s.now }
        ensures { result ≡ word_at 2 s.now at }
    {
        u16::from_le_bytes([s[at], s[at + 1]])
    }

    fn put(out: &mut [u8], at: usize, x: u16)
        requires { at + 2 ≤ length out.old }
        ensures { out.new ≡ sets out.old at (word_bytes 2 x) }
    {
        out[at..at + 2].copy_from_slice(&x.to_le_bytes());
    }

    fn is_within(self, low: u16, high: u16) -> bool {
        (low <= self) & (self <= high)
    }

    ghost same = { λ x. refl };

    ghost zero = { refl };
}

impl Word for u32 {
    const SIZE: usize = 4;

    ghost SIZE = { 4 };

    const ZERO: u32 = 0;

    ghost ZERO = { 0 };

    ghost of = { λ x. x };

    ghost value = { λ x. x };

    fn get(s: &[u8], at: usize) -> u32
        requires { at + 4 ≤ length s.now }
        ensures { result ≡ word_at 4 s.now at }
    {
        u32::from_le_bytes([s[at], s[at + 1], s[at + 2], s[at + 3]])
    }

    fn put(out: &mut [u8], at: usize, x: u32)
        requires { at + 4 ≤ length out.old }
        ensures { out.new ≡ sets out.old at (word_bytes 4 x) }
    {
        out[at..at + 4].copy_from_slice(&x.to_le_bytes());
    }

    fn is_within(self, low: u32, high: u32) -> bool {
        (low <= self) & (self <= high)
    }

    ghost same = { λ x. refl };

    ghost zero = { refl };
}
