// Why a call is refused: the question that was answered 'no'.
ghost use Rattle.std.specs.Prelude.{◌≡◌, cond, Ok, Err, Some};
ghost use Rattle.station.specs.Refusal.{refusal_number, refusal_text};

use std::error::Error;
use std::fmt;

#[derive(Clone, Copy, Debug, PartialEq, Eq)]
pub enum Refusal {
    // 1: a lent buffer is too small.
    NoRoom,
    // 2: the record isn't whole.
    NotWhole,
    // 3: fewer than 2 members or more than 8.
    MemberCount,
    // 4: an id is 0 or stands twice, or the first isn't the lowest.
    BadIds,
    // 5: the own id isn't among the members.
    NotAmong,
    // 6: the ring number is out of range.
    BadRing,
    // 7: the content is longer than 64 bytes.
    LongContent,
    // 8: the service is neither 0 nor 1.
    OtherService,
    // 9: 16 posts wait.
    PostsFull,
    // 10: the frame is shorter than its header, or its length isn't exact.
    WrongLength,
    // 11: the kind is neither 1 nor 2.
    OtherKind,
    // 12: the frame doesn't follow the layout.
    Malformed,
    // 13: another ring's number or representative.
    OtherRing,
    // 14: an id in it is no member's.
    NotMember,
    // 15: the token is addressed to another station.
    OtherAddressee,
    // 16: the token's number isn't above the last forwarded.
    OldToken,
    // 17: the token's number is the last that there is.
    LastToken,
    // 18: the token's highest is below the level, or below a number held here.
    BelowHeld,
    // 19: there is no token that may be resent.
    NothingToResend,
}

// The question's number in document 01. Ruled out: one number for all; 7 and 8 changed over.
impl From<Refusal> for u16 {
    ghost from_gives = { λ r n. n ≡ refusal_number r };

    fn from(r: Refusal) -> u16 {
        match r {
            Refusal::NoRoom => 1,
            Refusal::NotWhole => 2,
            Refusal::MemberCount => 3,
            Refusal::BadIds => 4,
            Refusal::NotAmong => 5,
            Refusal::BadRing => 6,
            Refusal::LongContent => 7,
            Refusal::OtherService => 8,
            Refusal::PostsFull => 9,
            Refusal::WrongLength => 10,
            Refusal::OtherKind => 11,
            Refusal::Malformed => 12,
            Refusal::OtherRing => 13,
            Refusal::NotMember => 14,
            Refusal::OtherAddressee => 15,
            Refusal::OldToken => 16,
            Refusal::LastToken => 17,
            Refusal::BelowHeld => 18,
            Refusal::NothingToResend => 19,
        }
    }
}

// The same in words. Ruled out: nothing written; two refusals with one text.
impl fmt::Display for Refusal {
    ghost output = { λ r. Some (refusal_text r) };

    fn fmt<W: fmt::Write>(&self, f: &mut fmt::Formatter<W>) -> fmt::Result {
        match self {
            Refusal::NoRoom => write!(f, "a lent buffer is too small"),
            Refusal::NotWhole => write!(f, "the record isn't whole"),
            Refusal::MemberCount => write!(f, "fewer than 2 members or more than 8"),
            Refusal::BadIds => {
                write!(
                    f,
                    "an id is 0 or stands twice, or the first isn't the lowest"
                )
            }
            Refusal::NotAmong => write!(f, "the own id isn't among the members"),
            Refusal::BadRing => write!(f, "the ring number is out of range"),
            Refusal::LongContent => write!(f, "the content is longer than 64 bytes"),
            Refusal::OtherService => write!(f, "the service is neither 0 nor 1"),
            Refusal::PostsFull => write!(f, "16 posts wait"),
            Refusal::WrongLength => {
                write!(
                    f,
                    "the frame is shorter than its header, or its length isn't exact"
                )
            }
            Refusal::OtherKind => write!(f, "the kind is neither 1 nor 2"),
            Refusal::Malformed => write!(f, "the frame doesn't follow the layout"),
            Refusal::OtherRing => write!(f, "another ring's number or representative"),
            Refusal::NotMember => write!(f, "an id in it is no member's"),
            Refusal::OtherAddressee => write!(f, "the token is addressed to another station"),
            Refusal::OldToken => write!(f, "the token's number isn't above the last forwarded"),
            Refusal::LastToken => write!(f, "the token's number is the last that there is"),
            Refusal::BelowHeld => {
                write!(
                    f,
                    "the token's highest is below the level, or below a number held here"
                )
            }
            Refusal::NothingToResend => write!(f, "there is no token that may be resent"),
        }
    }
}

impl Error for Refusal {}

// A question at the door: 'no' is a refusal. Ruled out: a refusal for a 'yes'; another refusal.
pub fn ask(yes: bool, why: Refusal) -> Result<(), Refusal>
    ensures { result ≡ cond yes (Ok tt) (Err why) }
{
    if yes { Ok(()) } else { Err(why) }
}
