// Runs of words, read from a byte slice into numbers or stored from numbers into it, and parts of one slice
// copied into another. Ruled out: one word too few; a place past the run changed.
ghost use Rattle.std.specs.Prelude.{◌≡◌, ◌++◌, ◌+◌, ◌*◌, ◌≤◌, ◌<◌, length, take, drop};
ghost use Rattle.std.proofs.lemmas.List.Edits.{sets};
ghost use Rattle.words.specs.Run.{words_as, bytes_as};

use crate::word::Word;

// The n words of s from `at` on go to the front of out.
pub fn get_run<W: Word>(s: &[u8], at: usize, n: usize, out: &mut [W])
    requires { (at + W.SIZE * n ≤ length s.now) × (n ≤ length out.old) }
    ensures { out.new ≡ words_as W.of W.SIZE n (drop at s.now) ++ drop n out.old }
{
    for i in 0..n {
        out[i] = W::get(s, at + W::SIZE * i);
    }
}

pub fn put_run<W: Word>(out: &mut [u8], at: usize, xs: &[W])
    requires { at + W.SIZE * length xs.now ≤ length out.old }
    ensures { out.new ≡ sets out.old at (bytes_as W.value W.SIZE xs.now) }
{
    for (i, x) in xs.iter().enumerate() {
        W::put(out, at + W::SIZE * i, *x);
    }
}

// All of xs, from `at` on. std's `copy_from_slice` does the same and was tried: its machine code asks at run time
// whether the two overlap and has a second loop for that, and a visit took 1.12 of the oracle's time.
pub fn put_slice<T: Copy>(out: &mut [T], at: usize, xs: &[T])
    requires { at + length xs.now ≤ length out.old }
    ensures { out.new ≡ sets out.old at xs.now }
{
    for (i, x) in xs.iter().enumerate() {
        out[at + i] = *x;
    }
}

// The n elements of s from `at` on go to the front of out.
pub fn get_slice<T: Copy>(s: &[T], at: usize, n: usize, out: &mut [T])
    requires { (at + n ≤ length s.now) × (n ≤ length out.old) }
    ensures { out.new ≡ take n (drop at s.now) ++ drop n out.old }
{
    put_slice(out, 0, &s[at..at + n]);
}

// N bytes, by way of an array: the compiler knows that it overlaps nothing.
fn put_piece<const N: usize>(out: &mut [u8], at: usize, xs: &[u8])
    requires { (length xs.now ≡ N) × (at + N ≤ length out.old) }
    ensures { out.new ≡ sets out.old at xs.now }
{
    let mut piece = [0u8; N];
    put_slice(&mut piece, 0, xs);
    put_slice(out, at, &piece);
}

// Fewer than 16 bytes: the first 8 and the last 8, which may overlap, or one by one.
fn put_few(out: &mut [u8], at: usize, xs: &[u8])
    requires { (length xs.now < 16) × (at + length xs.now ≤ length out.old) }
    ensures { out.new ≡ sets out.old at xs.now }
{
    let n = xs.len();
    if n < 8 {
        put_slice(out, at, xs);
        return;
    }
    put_piece::<8>(out, at, &xs[..8]);
    put_piece::<8>(out, at + (n - 8), &xs[n - 8..]);
}

// The same as put_slice, for a number of bytes that the compiler does not know: 16 at a time, and the last 16
// again from wherever they begin.
pub fn put_many(out: &mut [u8], at: usize, xs: &[u8])
    requires { at + length xs.now ≤ length out.old }
    ensures { out.new ≡ sets out.old at xs.now }
{
    let n = xs.len();
    if n < 16 {
        put_few(out, at, xs);
        return;
    }
    for i in (0..n - 15).step_by(16) {
        put_piece::<16>(out, at + i, &xs[i..i + 16]);
    }
    put_piece::<16>(out, at + (n - 16), &xs[n - 16..]);
}
