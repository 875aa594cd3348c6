// Founding: in lent bytes, by a list of ids or of bytes; and by value.
ghost use Rattle.std.specs.Prelude.{◌≡◌, true, [], ◌≤◌, length};
ghost use Rattle.frames.specs.Layout.{shortest_token};
ghost use Rattle.frames.specs.Token.{token_bytes};
ghost use Rattle.record.specs.Members.{foundable};
ghost use Rattle.visit.specs.Output.{followed_by};
ghost use Rattle.station.specs.Reply.{done_of, answered, Does};
ghost use Rattle.station.specs.Found.{first_token, founded_on};
ghost use Rattle.station.specs.Over.{found_in, found_over};
ghost use Rattle.station.specs.inner.Value.{listed_count};

use crate::answer::Answer;
use crate::done;
use crate::done::Done;
use crate::refusal::{Refusal, ask};
use frames::{Header, MessageNumber, RingNumber, Token, TokenNumber};
use record::Record;

#[tactic(auto, unfolding(crate::specs::Found::first_token))]
fn first_token(ids: &[u16], ring: RingNumber) -> Token
    ensures { result ≡ first_token ids.now ring.0 }
{
    let representative = record::representative_of(ids);
    Token {
        header: Header {
            ring,
            representative,
        },
        addressee: representative,
        number: TokenNumber(1),
        highest: MessageNumber(0),
        aru: MessageNumber(0),
        blocker: None,
        round: 0,
        backlog: 0,
        count: 0,
        requests: [MessageNumber(0); frames::MOST_REQUESTS],
    }
}

// The ring's first token to the front.
#[tactic(auto, using(crate::proofs::FoundLaws::first_written))]
fn put_first_token(ids: &[u16], own: u16, ring: RingNumber, token: &mut [u8])
    requires { (foundable ids.now own ring.0 ≡ true) × (shortest_token ≤ length token.old) }
    ensures { token.new ≡ followed_by (token_bytes (first_token ids.now ring.0)) token.old }
{
    let t = first_token(ids, ring);
    frames::put_token(t, token);
}

// 1 and 3 to 6, of a list of ids; then the ring's first token and a fresh record. Ruled out: a token written with
// a refusal; 5 where the ids don't follow.
#[tactic(auto, unfolding(crate::specs::Over::found_in, crate::specs::Found::founded, record::specs::Members::foundable))]
pub fn found_ids_in(
    s: &mut [u8],
    ids: &[u16],
    own: u16,
    ring: RingNumber,
    token: &mut [u8],
) -> Result<Answer, Refusal>
    ensures { Does answered (found_in s.old ids.now own ring.0 (length token.old)) result
        s.old s.new token.old token.new [] [] }
{
    ask(record::RECORD_SIZE <= s.len(), Refusal::NoRoom)?;
    ask(frames::SHORTEST_TOKEN <= token.len(), Refusal::NoRoom)?;
    ask(record::members_counted(ids), Refusal::MemberCount)?;
    ask(record::ids_follow(ids), Refusal::BadIds)?;
    ask(record::is_member(ids, own), Refusal::NotAmong)?;
    ask(frames::is_number(ring.0), Refusal::BadRing)?;
    put_first_token(ids, own, ring, token);
    record::put_fresh(s, ids, own, ring);
    Ok(Answer::Founded)
}

// How many ids a list of members has. Bytes that are no list (an odd number, or too many ids) have none, and founding
// by none is refused as founding by them: an Option would be turned into 0 at once.
fn id_count(members: &[u8]) -> usize
    ensures { result ≡ listed_count members.now }
{
    let n = members.len() / 2;
    if members.len() % 2 == 0 && n <= record::MOST_MEMBERS {
        n
    } else {
        0
    }
}

// The same of a list of members, two bytes an id. Ruled out: a record written with a refusal; an odd list read as
// a shorter one.
#[tactic(auto, using(crate::proofs::ListLaws::over_listed, crate::proofs::ListLaws::ids_read))]
pub fn found_in(
    s: &mut [u8],
    members: &[u8],
    own: u16,
    ring: RingNumber,
    token: &mut [u8],
) -> Result<Answer, Refusal>
    ensures { Does answered (found_over s.old members.now own ring.0 (length token.old)) result
        s.old s.new token.old token.new [] [] }
{
    let mut ids = [0u16; record::MOST_MEMBERS];
    let n = id_count(members);
    words::get_run(members, 0, n, &mut ids);
    found_ids_in(s, &ids[..n], own, ring, token)
}

// Founds a station of a ring and hands out the ring's first token. Ruled out: the members sorted; a
// token addressed to the own id.
pub fn found_step(rec: Record, ids: &[u16], own: u16, ring: RingNumber, token: &mut [u8]) -> Done
    ensures { let reply = founded_on rec (length token.old) ids.now own ring.0 in
        (result ≡ done_of reply) × (token.new ≡ followed_by reply.frames token.old) }
{
    // Founding asks nothing of the record that was there, so it isn't lent.
    let mut bytes = [0u8; record::RECORD_SIZE];
    let answer = found_ids_in(&mut bytes, ids, own, ring, token);
    done::settle(rec, answer, &bytes)
}
