// Why a frame is not read or not written.
ghost use Rattle.std.specs.Prelude.{◌≡◌, Some};
ghost use Rattle.frames.specs.Refusal.{frame_refusal_number, refusal_text};

use std::error::Error;
use std::fmt;

#[derive(Clone, Copy, Debug, PartialEq, Eq, Hash)]
pub enum Refusal {
    // 1: the buffer is smaller than the frame.
    NoRoom,
    // 10: under 10 bytes, or not as long as its length field says.
    WrongLength,
    // 11: a kind other than 1 and 2.
    OtherKind,
    // 12: something else doesn't follow the layout.
    Malformed,
}

// In words. Ruled out: nothing written; two refusals with one text.
impl fmt::Display for Refusal {
    ghost output = { λ r. Some (refusal_text r) };

    fn fmt<W: fmt::Write>(&self, f: &mut fmt::Formatter<W>) -> fmt::Result {
        match self {
            Refusal::NoRoom => write!(f, "no room for the frame"),
            Refusal::WrongLength => write!(
                f,
                "under 10 bytes, or not as long as its length field says"
            ),
            Refusal::OtherKind => write!(f, "neither a message nor a token"),
            Refusal::Malformed => write!(f, "something doesn't follow the layout"),
        }
    }
}

impl Error for Refusal {}

// The question's number in document 01. Ruled out: one number for all; 11 and 12 swapped.
impl From<Refusal> for u16 {
    ghost from_gives = { λ r n. n ≡ frame_refusal_number r };

    fn from(r: Refusal) -> u16 {
        match r {
            Refusal::NoRoom => 1,
            Refusal::WrongLength => 10,
            Refusal::OtherKind => 11,
            Refusal::Malformed => 12,
        }
    }
}
