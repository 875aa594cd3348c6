// What is wrong with a line that isn't understood.
use std::fmt;

#[derive(Clone, Copy, Debug, Drop, PartialEq, Eq)]
pub enum Fault {
    Letter,
    NoNumber,
    LargeId,
    NotHexadecimal,
    MoreFields,
    NoPlace,
    NoRing,
}

impl fmt::Display for Fault {
    fn fmt<W: fmt::Write>(&self, f: &mut fmt::Formatter<W>) -> fmt::Result {
        f.write_str(match self {
            Fault::Letter => "a line begins with r, p, t, f or w and a space",
            Fault::NoNumber => "a number is missing or isn't one",
            Fault::LargeId => "an id is at most 65535",
            Fault::NotHexadecimal => "a frame is pairs of hexadecimal digits",
            Fault::MoreFields => "there is more on the line than belongs there",
            Fault::NoPlace => "there is no station at that place",
            Fault::NoRing => "there is no ring yet",
        })
    }
}
