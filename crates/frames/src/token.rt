// Kind 2, token: its values.
ghost use Rattle.std.specs.Prelude.{◌≡◌, ◌≤◌, length};
ghost use Rattle.frames.specs.Token.{blocker_of, blocker_id, blocker_follows, numbers_in, numbered, requests_of, requests_follow, request_count, token_of, token_follows};
ghost use Rattle.frames.specs.Layout.{most_requests, token_size};

use crate::header::Header;
use crate::number::{MessageNumber, TokenNumber};
use crate::{header, layout, number};
use words::Word;

// Whoever holds the aru below the highest: nobody, written 0, or one member. The paper's aru_id.
pub type Blocker = Option<u16>;

#[derive(Clone, Copy, Debug, PartialEq, Eq, Hash)]
pub struct Token {
    pub header: Header,
    pub addressee: u16,
    // The paper's token_seq.
    pub number: TokenNumber,
    // The highest message number. The paper's seq.
    pub highest: MessageNumber,
    pub aru: MessageNumber,
    pub blocker: Blocker,
    // Broadcasts of the last round. The paper's fcc.
    pub round: u16,
    // What waited at the stations when each last forwarded the token, in all.
    pub backlog: u16,
    // The requests are the first `count` places; the others are 0. The paper's rtr. An array and a count, since
    // nothing here is on a heap.
    pub count: u16,
    pub requests: [MessageNumber; layout::MOST_REQUESTS],
}

pub fn blocker_of(id: u16) -> Blocker
    ensures { result ≡ blocker_of id }
{
    (id != 0).then_some(id)
}

pub fn blocker_id(b: Blocker) -> u16
    ensures { result ≡ blocker_id b }
{
    b.unwrap_or(0)
}

fn blocker_follows(b: Blocker, aru: u32, highest: u32) -> bool
    ensures { result ≡ blocker_follows b aru highest }
{
    match b {
        None => aru == highest,
        Some(id) => (aru != highest) & number::is_id(id),
    }
}

// The numbers in a token's places. Ruled out: the last place left 0; two places changed over.
pub fn numbers_in(requests: [MessageNumber; layout::MOST_REQUESTS]) -> [u32; layout::MOST_REQUESTS]
    ensures { result ≡ numbers_in requests }
{
    requests.map(|n| n.0)
}

// Places with these numbers. Ruled out: a place that keeps 0; one number in every place.
pub fn numbered(numbers: [u32; layout::MOST_REQUESTS]) -> [MessageNumber; layout::MOST_REQUESTS]
    ensures { result ≡ numbered numbers }
{
    numbers.map(MessageNumber)
}

#[tactic(auto, using(crate::proofs::TokenLaws::requests_padded))]
fn requests_of(frame: &[u8], n: u16) -> [u32; layout::MOST_REQUESTS]
    requires { (n ≤ most_requests) × (token_size n ≤ length frame.now) }
    ensures { result ≡ requests_of n frame.now }
{
    let mut requests = [0u32; layout::MOST_REQUESTS];
    words::get_run(frame, layout::REQUESTS_AT, n as usize, &mut requests);
    requests
}

#[tactic(auto, unfolding(crate::specs::Token::requests_follow))]
fn requests_follow(count: u16, requests: &[u32; layout::MOST_REQUESTS], highest: u32) -> bool
    ensures { result ≡ requests_follow count requests.now highest }
{
    let Some((asked, rest)) = requests.split_at_checked(count as usize) else {
        return false;
    };
    words::all_within(asked, 1, highest) & words::distinct(asked) & words::all_zero(rest)
}

// The values of a token frame with n requests.
#[tactic(auto, unfolding(crate::specs::Token::token_of))]
pub fn token_of(frame: &[u8], n: u16) -> Token
    requires { (n ≡ request_count frame.now) × (n ≤ most_requests) × (token_size n ≤ length frame.now) }
    ensures { result ≡ token_of frame.now }
{
    Token {
        header: header::header_of(frame),
        addressee: u16::get(frame, layout::ADDRESSEE_AT),
        number: TokenNumber(u32::get(frame, layout::TOKEN_NUMBER_AT)),
        highest: MessageNumber(u32::get(frame, layout::HIGHEST_AT)),
        aru: MessageNumber(u32::get(frame, layout::ARU_AT)),
        blocker: blocker_of(u16::get(frame, layout::BLOCKER_AT)),
        round: u16::get(frame, layout::ROUND_AT),
        backlog: u16::get(frame, layout::BACKLOG_AT),
        count: n,
        requests: numbered(requests_of(frame, n)),
    }
}

// Question 12 of a token's values. Ruled out: aru above the highest taken; a request twice taken.
#[tactic(auto, unfolding(crate::specs::Token::token_follows))]
pub fn token_follows(t: Token) -> bool
    ensures { result ≡ token_follows t }
{
    header::header_follows(t.header)
        & number::is_id(t.addressee)
        & number::is_number(t.number.0)
        & (t.highest.0 <= number::MOST_NUMBER)
        & (t.aru.0 <= t.highest.0)
        & blocker_follows(t.blocker, t.aru.0, t.highest.0)
        & (t.round <= layout::MOST_ROUND)
        & (t.backlog <= layout::MOST_BACKLOG)
        & requests_follow(t.count, &numbers_in(t.requests), t.highest.0)
}
