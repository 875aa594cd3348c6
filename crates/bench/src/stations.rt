// The stations of the ring that the script has founded, by place.
ghost use Rattle.std.specs.Prelude.{◌≡◌, take};

use crate::line::IDS_ROOM;
use crate::number;
use crate::output::Printer;
use arrayvec::ArrayVec;
use frames::RingNumber;

const RECORDS_ROOM: usize = IDS_ROOM / 2 * record::RECORD_SIZE;

// What a place can hand out for all broadcasts of one visit.
const DELIVERIES_ROOM: usize = record::MOST_BROADCASTS * visit::MOST_DELIVERIES;

const TOKEN_ROOM: usize = frames::LONGEST_TOKEN;

pub type Token = ArrayVec<u8, TOKEN_ROOM>;

// Their records, and the list of members, two bytes an id; before there is a ring nobody is in it.
#[derive(Drop)]
pub struct Stations {
    records: [u8; RECORDS_ROOM],
    list: ArrayVec<u8, IDS_ROOM>,
}

// The first `n` bytes, or all where there are fewer. Ruled out: one byte fewer; none where there are fewer.
#[tactic(auto, using(words::proofs::TakeLaws::first_taken))]
fn first(bytes: &[u8], n: usize) -> &[u8]
    ensures { result.now ≡ take n bytes.now }
{
    bytes.get(..n).unwrap_or(bytes)
}

impl Stations {
    pub fn new() -> Stations {
        Stations {
            records: [0; RECORDS_ROOM],
            list: ArrayVec::new(),
        }
    }

    pub fn members(&self) -> usize {
        self.list.len() / 2
    }

    // Founds a ring on a list of ids, and answers its first token, or the number of a question that
    // refuses it.
    pub fn found(&mut self, ids: &[u8], number: u32) -> Result<Option<Token>, u16> {
        let mut token = [0u8; TOKEN_ROOM];
        let answer = ring::found_ring(&mut self.records, ids, RingNumber(number), &mut token);
        if answer.refusal != 0 {
            return Err(answer.refusal);
        }
        self.list.clear();
        let _ = self.list.try_extend_from_slice(ids);
        Ok(Token::try_from(first(&token, answer.frames as usize)).ok())
    }

    // A post's refusal, or 0: answers come in numbers, as hosts in C get them.
    pub fn post(&mut self, place: usize, service: u16, content: &[u8]) -> u16 {
        ring::post_at(&mut self.records, place, service, content).refusal
    }

    // The place that a token is addressed to, if it is somebody's.
    pub fn addressee(&self, token: &[u8]) -> Option<usize> {
        ring::addressee_place(self.list.as_slice(), token)
    }

    // A frame arrives at a place. Its refusal or deliveries are printed, and its broadcasts reach the
    // others but for `without`. Answers the token that it writes.
    pub fn arrive<R: Print + Eprint>(
        &mut self,
        place: usize,
        without: Option<usize>,
        frame: &[u8],
        out: &mut Printer<R>,
    ) -> Option<Token> {
        let mut frames = [0u8; visit::MOST_FRAMES];
        let mut deliveries = [0u8; DELIVERIES_ROOM];
        let answer = ring::arrive_at(
            &mut self.records,
            place,
            frame,
            &mut frames,
            &mut deliveries,
        );
        let written = first(&frames, answer.frames as usize);
        out.refusal(answer.refusal);
        out.deliveries(
            number::within_u32(place),
            first(&deliveries, answer.deliveries as usize),
        );
        self.broadcast(place, without, written, &mut deliveries, out);
        if written.is_empty() {
            return None;
        }
        Token::try_from(ring::newest_token(written)).ok()
    }

    // A visit's broadcasts reach all other places, in their order. What it takes goes together here alone.
    fn broadcast<R: Print + Eprint>(
        &mut self,
        visited: usize,
        without: Option<usize>,
        written: &[u8],
        deliveries: &mut [u8],
        out: &mut Printer<R>,
    ) {
        for place in 0..self.members() {
            if place != visited && Some(place) != without {
                self.reach(place, written, deliveries, out);
            }
        }
    }

    // A visit's broadcasts reach one place.
    fn reach<R: Print + Eprint>(
        &mut self,
        place: usize,
        written: &[u8],
        deliveries: &mut [u8],
        out: &mut Printer<R>,
    ) {
        let n = ring::hear_all(&mut self.records, place, written, deliveries);
        out.deliveries(number::within_u32(place), first(deliveries, n));
    }
}
