// A visit: the token that was accepted, and the record that it comes to. Steps 1 to 8 read it and leave it alone;
// each is a method in the file of its name.
ghost use Rattle.std.specs.Prelude.{◌≤◌, length};
ghost use Rattle.record.specs.inner.Head.{record_in};
ghost use Rattle.record.specs.Layout.{record_size};
ghost use Rattle.visit.specs.Acceptable.{Acceptable, visit};

use frames::Token;
use record::Head;

// The head and the bytes make up the record; the token passes 2 and 12 to 18 there. The head and the token are
// lent, so that a step copies neither.
#[derive(Clone, Copy)]
pub struct TokenVisit<'a> {
    pub head: &'a Head,
    pub bytes: &'a [u8],
    pub token: &'a Token,
    ghost long: { record_size ≤ length bytes.now },
    ghost acceptable: { Acceptable (visit (record_in head.now bytes.now) token.now) },
}
