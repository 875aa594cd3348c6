// The founding questions, of a list of ids, the own id and the ring number.
ghost use Rattle.std.specs.Prelude.{◌≡◌};
ghost use Rattle.record.specs.Members.{is_member, representative, members_counted, ids_follow, foundable};

use crate::size;
use frames::RingNumber;

// Ruled out: the last of them passed over; 0 found in a list without it.
pub fn is_member(ids: &[u16], id: u16) -> bool
    ensures { result ≡ is_member ids.now id }
{
    ids.contains(&id)
}

// The first in circulation order, or 0 of an empty list: so the definition has it, which question 13 compares with a
// frame's. Ruled out: the last; the own id.
pub fn representative_of(ids: &[u16]) -> u16
    ensures { result ≡ representative ids.now }
{
    ids.first().copied().unwrap_or(0)
}

// Question 3. Ruled out: one alone taken; eight refused.
pub fn members_counted(ids: &[u16]) -> bool
    ensures { result ≡ members_counted ids.now }
{
    (size::LEAST_MEMBERS <= ids.len()) & (ids.len() <= size::MOST_MEMBERS)
}

// Question 4. Ruled out: an id twice; the lowest in a later place.
pub fn ids_follow(ids: &[u16]) -> bool
    ensures { result ≡ ids_follow ids.now }
{
    words::all_within(ids, 1, frames::MOST_ID)
        & words::distinct(ids)
        & words::all_within(ids, representative_of(ids), frames::MOST_ID)
}

// Questions 3 to 6, as whole asks them.
pub fn foundable_by(ids: &[u16], own: u16, ring: RingNumber) -> bool
    ensures { result ≡ foundable ids.now own ring.0 }
{
    members_counted(ids) & ids_follow(ids) & is_member(ids, own) & frames::is_number(ring.0)
}
