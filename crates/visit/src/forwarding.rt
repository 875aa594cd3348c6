// Steps 4 to 8 of a visit: the token that is forwarded and remembered.
ghost use Rattle.std.specs.Prelude.{◌≡◌};
ghost use Rattle.visit.specs.Visit.{requests', safe', stall', waits', token', turn'};
ghost use Rattle.visit.specs.inner.Steps.{reach_of, forwarded_of, visit_of};

use crate::marks::Reach;
use crate::request_list::Requests;
use crate::sent_visit::SentVisit;
use crate::{circulation, flow, held_frames, marks, requests};
use frames::{MessageNumber, Token, TokenNumber};
use record::Turn;

// What the station keeps until the token's next visit, the token in it; the new safe mark; the id in the
// notice 'deaf', or 0, a number as in `Visited`.
#[derive(Clone, Copy)]
pub struct Forwarded {
    pub turn: Turn,
    pub safe: MessageNumber,
    pub deaf: u16,
}

impl SentVisit<'_> {
    // 7. The requests.
    fn requests_after(&self, safe: MessageNumber) -> Requests
        requires { safe.0 ≡ safe' (visit_of self.now.visit) }
        ensures { result ≡ requests' (visit_of self.now.visit) }
    {
        let sent = self.sent;
        let highest = self.visit.token.highest.0 + sent.added;
        let window = safe.0 + record::MOST_HELD as u32;
        let top = MessageNumber(highest.min(window));
        requests::add_missing(&sent.log, &sent.rest, sent.log.level, top)
    }

    // 8. The posts that wait afterwards.
    fn waits_after(&self) -> u32
        ensures { result ≡ waits' (visit_of self.now.visit) }
    {
        self.visit.head.posts.count as u32 - self.sent.added
    }

    // 8. The token.
    fn token_after(&self, reach: Reach, requests: &Requests) -> Token
        requires { (reach ≡ reach_of (visit_of self.now.visit))
            × (requests.now ≡ requests' (visit_of self.now.visit)) }
        ensures { result ≡ token' (visit_of self.now.visit) }
    {
        let head = self.visit.head;
        let token = self.visit.token;
        let n = head.log.count as usize;
        Token {
            header: held_frames::ring_header(&head.log),
            addressee: circulation::next_member(&head.log.members[0..n], head.own),
            number: TokenNumber(token.number.0 + 1),
            highest: MessageNumber(token.highest.0 + self.sent.added),
            aru: reach.aru,
            blocker: reach.blocker,
            round: flow::sum_after(
                flow::others_part(token.round, head.turn.broadcast),
                self.sent.count,
                frames::MOST_ROUND,
            ),
            backlog: flow::sum_after(
                flow::others_part(token.backlog, head.turn.waited),
                self.waits_after(),
                frames::MOST_BACKLOG,
            ),
            count: requests.len(),
            requests: frames::numbered(requests.places()),
        }
    }

    // 8. The token is remembered, and may be resent.
    fn turn_after(&self, token: Token, stall: u8) -> Turn
        requires { (token ≡ token' (visit_of self.now.visit)) × (stall ≡ stall' (visit_of self.now.visit)) }
        ensures { result ≡ turn' (visit_of self.now.visit) }
    {
        let mut bytes = [0u8; frames::LONGEST_TOKEN];
        frames::put_token(token, &mut bytes);
        Turn {
            aru: token.aru,
            earlier: self.visit.head.turn.aru,
            number: token.number,
            broadcast: self.sent.count as u8,
            stall,
            waited: self.waits_after() as u8,
            size: frames::token_size(token.count) as u8,
            token: bytes,
        }
    }

    // Ruled out: the token passed along untouched; a round count that leaves the own broadcasts out.
    pub fn forward(&self) -> Forwarded
        ensures { result ≡ forwarded_of (visit_of self.now.visit) }
    {
        let head = self.visit.head;
        let arrived = self.visit.token;
        let highest = MessageNumber(arrived.highest.0 + self.sent.added);
        let reach = marks::reach_after(
            head.own,
            self.sent.log.level,
            highest,
            arrived.aru,
            arrived.blocker,
        );
        let stall = marks::stall_after(&head.turn, reach.aru, reach.blocker);
        let safe = marks::safe_after(head.log.safe, head.turn.aru, reach.aru);
        let requests = self.requests_after(safe);
        let token = self.token_after(reach, &requests);
        let turn = self.turn_after(token, stall);
        Forwarded {
            turn,
            safe,
            deaf: marks::deaf_after(head.own, stall, reach.blocker),
        }
    }
}
