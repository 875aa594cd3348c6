// The frames within the bytes that a call wrote, one after another: messages for all stations, and a
// visit's token last.
ghost use Rattle.std.specs.Prelude.{◌≡◌, ◌≤◌, ◌<◌, [], length, take};
ghost use Rattle.std.specs.Iterator.{YieldsFirstRef, item_count};
ghost use Rattle.frames.specs.Header.{own_size};
ghost use Rattle.frames.specs.Read.{read_of};
ghost use Rattle.visit.specs.Output.{followed_by};
ghost use Rattle.visit.specs.Within.{frames_in};
ghost use Rattle.ring.specs.Newest.{last_of};
ghost use Rattle.ring.specs.Stations.{with_record, is_message, Reached, heard_at};

use crate::stations;
use frames::Frame;

// How long the first frame within these bytes is; there is one while there are bytes. Ruled out: a
// size past their end; 0 for a length field that is cut off.
pub fn first_size(written: &[u8]) -> usize
    ensures value { result ≡ length (take (own_size written.now) written.now) }
    ensures result_nonzero { 0 < length written.now → 0 < result }
{
    match frames::framed_size(written) {
        Some(size) => size.min(written.len()),
        None => written.len(),
    }
}

// The frames that are still to come: the first of them is the next. Ruled out: a frame left out; two
// frames as one.
#[derive(Drop)]
pub struct Frames<'a> {
    rest: &'a [u8],
}

impl<'a> Frames<'a> {
    pub fn new(written: &'a [u8]) -> Frames<'a>
        ensures { result.rest.now ≡ written.now }
    {
        Frames { rest: written }
    }
}

impl<'a> Iterator for Frames<'a> {
    type Item = &'a [u8];

    ghost next_gives = { YieldsFirstRef (λ s. frames_in s.rest.now) };

    ghost remaining = { item_count (λ s. frames_in s.rest.now) };

    fn next(&mut self) -> Option<&'a [u8]> {
        if self.rest.is_empty() {
            return None;
        }
        let (frame, rest) = self.rest.split_at(first_size(self.rest));
        self.rest = rest;
        Some(frame)
    }
}

// The last of the frames: a visit's token. Ruled out: the first frame; a copy that is not a part of
// these bytes.
pub fn newest_token(written: &[u8]) -> &[u8]
    ensures { result.now ≡ last_of [] (frames_in written.now) }
{
    Frames::new(written).last().unwrap_or(&[])
}

fn is_message(frame: &[u8]) -> bool
    ensures { result ≡ is_message (read_of frame.now) }
{
    matches!(frames::read(frame), Ok(Frame::Message(_)))
}

// A frame reaches a place unless it is a token. What it hands out goes into `deliveries` from `at`
// on; answers the position after it.
fn hear(records: &mut [u8], place: usize, frame: &[u8], deliveries: &mut [u8], at: usize) -> usize
    requires { at ≤ length deliveries.old }
    ensures { Reached place records.old frame.now deliveries.old at result records.new deliveries.new }
{
    if !is_message(frame) {
        return at;
    }
    let mut frames = [0u8; visit::MOST_FRAMES];
    let heard = stations::arrive_at(records, place, frame, &mut frames, &mut deliveries[at..]);
    at + heard.deliveries as usize
}

// The message frames within these bytes reach a place, in the order written. What it hands out is
// joined in `deliveries`; answers how many bytes that is. Ruled out: a message left out; the order
// turned round.
pub fn hear_all(records: &mut [u8], place: usize, written: &[u8], deliveries: &mut [u8]) -> usize
    ensures { (result ≡ length (heard_at place records.old written.now (length deliveries.old)).handed)
        × (records.new ≡ with_record place
        (heard_at place records.old written.now (length deliveries.old)).bytes
        records.old)
        × (deliveries.new ≡ followed_by
        (heard_at place records.old written.now (length deliveries.old)).handed
        deliveries.old) }
{
    let mut at = 0;
    for frame in Frames::new(written) {
        at = hear(records, place, frame, deliveries, at);
    }
    at
}
