// The list of members as bytes, two an id, and the place of an id in it.
ghost use Rattle.std.specs.Prelude.{◌≡◌, length, slice_get};
ghost use Rattle.station.specs.Over.{ids_in};
ghost use Rattle.ring.specs.Stations.{place_from, addressee_place};

use frames::Frame;
use words::Word;

// How many ids are in the list: an odd number of bytes is no list.
pub fn id_count(members: &[u8]) -> usize
    ensures { result ≡ length (ids_in members.now) }
{
    if members.len() % 2 != 0 {
        return 0;
    }
    members.len() / 2
}

// The id at a place of the list; none past its end.
pub fn id_at(members: &[u8], place: usize) -> Option<u16>
    ensures { result ≡ slice_get (ids_in members.now) place }
{
    if id_count(members) <= place {
        return None;
    }
    Some(u16::get(members, 2 * place))
}

fn place_of(members: &[u8], id: u16) -> Option<usize>
    ensures { result ≡ place_from 0 (ids_in members.now) id }
{
    (0..id_count(members)).find(|&place| id_at(members, place) == Some(id))
}

// The place of the station that a token is addressed to, if it is somebody's; what is no token is
// addressed to id 0. Ruled out: the place of its sender; a place counted from 1.
#[tactic(auto, unfolding(crate::specs::Stations::addressee_place))]
pub fn addressee_place(members: &[u8], token: &[u8]) -> Option<usize>
    ensures { result ≡ addressee_place members.now token.now }
{
    match frames::read(token) {
        Ok(Frame::Token(t)) => place_of(members, t.addressee),
        _ => place_of(members, 0),
    }
}
