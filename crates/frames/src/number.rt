// The three counters, each a type of its own so that none can stand for another, and ids.
ghost use Rattle.std.specs.Prelude.{◌≡◌};
ghost use Rattle.frames.specs.Number.{is_number, is_id};

#[derive(Clone, Copy, Debug, PartialEq, Eq, PartialOrd, Ord, Hash)]
pub struct RingNumber(pub u32);

#[derive(Clone, Copy, Debug, PartialEq, Eq, PartialOrd, Ord, Hash)]
pub struct MessageNumber(pub u32);

#[derive(Clone, Copy, Debug, PartialEq, Eq, PartialOrd, Ord, Hash)]
pub struct TokenNumber(pub u32);

pub const MOST_NUMBER: u32 = 2000000000;

pub const MOST_ID: u16 = 65535;

// A ring, message or token number. Ruled out: 0 taken; 2,000,000,001 taken.
pub fn is_number(n: u32) -> bool
    ensures { result ≡ is_number n }
{
    (1..=MOST_NUMBER).contains(&n)
}

// A member's id. Ruled out: 0 taken; 65,535 refused.
pub fn is_id(id: u16) -> bool
    ensures { result ≡ is_id id }
{
    (1..=MOST_ID).contains(&id)
}
