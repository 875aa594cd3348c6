// Tests of a whole slice. Ruled out: the last element not looked at; a bound itself refused. A test of
// ranges looks at every element, with no way out of the loop, so that the compiler can test many at once.
ghost use Rattle.std.specs.Prelude.{◌≡◌, ◌&&◌, leb};
ghost use Rattle.words.specs.Scan.{all_within_as, lacks_by, distinct_by};

use crate::word::Word;

pub fn all_within<W: Word>(s: &[W], low: W, high: W) -> bool
    ensures { result ≡ all_within_as W.value (W.value low) (W.value high) s.now }
{
    let mut good = true;
    for x in s {
        good = good & x.is_within(low, high);
    }
    good
}

pub fn all_zero<W: Word>(s: &[W]) -> bool
    ensures { result ≡ all_within_as W.value 0 0 s.now }
{
    all_within(s, W::ZERO, W::ZERO)
}

// x is not among them. std's `contains` tells the same; tried here and in `distinct`, it stayed a call of its own at eleven
// places, and founding took 1.02 to 1.09 times the oracle's time in place of 0.88 to 0.94.
pub fn lacks<T: Copy + PartialEq>(s: &[T], x: T) -> bool
    ensures { result ≡ lacks_by T.eq s.now x }
{
    for y in s {
        if *y == x {
            return false;
        }
    }
    true
}

// None stands twice.
pub fn distinct<T: Copy + PartialEq>(s: &[T]) -> bool
    ensures { result ≡ distinct_by T.eq s.now }
{
    for (i, x) in s.iter().enumerate() {
        if !lacks(&s[i + 1..], *x) {
            return false;
        }
    }
    true
}
