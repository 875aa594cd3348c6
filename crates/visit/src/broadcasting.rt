// Steps 1 to 3 of a visit: the repeats are written out, and the new messages are held, but for their contents.
ghost use Rattle.std.specs.Prelude.{◌≡◌, ◌≤◌, length};
ghost use Rattle.std.proofs.lemmas.List.Edits.{sets};
ghost use Rattle.visit.specs.Output.{most_frames};
ghost use Rattle.visit.specs.Deliver.{joined};
ghost use Rattle.visit.specs.Visit.{repeats};
ghost use Rattle.visit.specs.inner.Steps.{repeat_frames, sent_of, visit_of};

use crate::held_log::HeldLog;
use crate::level;
use crate::request_list::Requests;
use crate::requests::Split;
use crate::token_visit::TokenVisit;
use record::LogHead;

// The head of what is held now, the requests that stay, how many messages are new, how many are broadcast in
// all, and the size of the repeats' frames.
#[derive(Clone, Copy)]
pub struct Sent {
    pub log: LogHead,
    pub rest: Requests,
    pub added: u32,
    pub count: u32,
    pub size: usize,
}

impl TokenVisit<'_> {
    // The repeats' frames, from the front.
    fn put_repeats(&self, held: &Requests, out: &mut [u8]) -> usize
        requires { (held.now ≡ repeats (visit_of self.now)) × (most_frames ≤ length out.old) }
        ensures { (result ≡ length (joined (repeat_frames (visit_of self.now))))
            × (out.new ≡ sets out.old 0 (joined (repeat_frames (visit_of self.now)))) }
    {
        let log = HeldLog::new(&self.head.log, record::contents_in(self.bytes));
        log.put_each(held.as_slice(), out, 0)
    }

    // Ruled out: a post sent that the round count forbids; a repeat that isn't held.
    pub fn broadcast(&self, out: &mut [u8]) -> Sent
        requires { most_frames ≤ length out.old }
        ensures { (result ≡ sent_of (visit_of self.now))
            × (out.new ≡ sets out.old 0 (joined (repeat_frames (visit_of self.now)))) }
    {
        let requests = frames::numbers_in(self.token.requests);
        let asked = self.token.count as usize;
        let mut split = Split::none();
        split.take(&self.head.log, &requests[0..asked]);
        let repeated = split.held.len() as u32;
        let added = self.new_count(repeated);
        let log = level::raise(self.hold_new(added));
        let size = self.put_repeats(&split.held, out);
        Sent {
            log,
            rest: split.rest,
            added,
            count: repeated + added,
            size,
        }
    }
}
