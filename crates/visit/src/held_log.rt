// A log that is lent, with the header of its ring's frames: each message that it holds can be written out. Its
// methods are in the files of frames and of delivery.
ghost use Rattle.std.specs.Prelude.{◌≡◌, true};
ghost use Rattle.frames.specs.Header.{header_follows};
ghost use Rattle.record.specs.inner.Head.{log_on};
ghost use Rattle.record.proofs.WholeFacts.{LogGood};
ghost use Rattle.visit.specs.Deliver.{ring_header};

use crate::held_frames;
use frames::Header;
use record::LogHead;

#[derive(Clone, Copy)]
pub struct HeldLog<'a> {
    pub log: &'a LogHead,
    pub contents: &'a [u8],
    pub header: Header,
    ghost good: { LogGood (log_on log.now contents.now) },
    ghost of_ring: { header ≡ ring_header (log_on log.now contents.now) },
    ghost follows: { header_follows (ring_header (log_on log.now contents.now)) ≡ true },
}

impl<'a> HeldLog<'a> {
    // Ruled out: another log's header; the contents of the posts.
    pub fn new(log: &'a LogHead, contents: &'a [u8]) -> Self
        requires { LogGood (log_on log.now contents.now)
            × (header_follows (ring_header (log_on log.now contents.now)) ≡ true) }
        ensures { (result.log.now ≡ log.now) × (result.contents.now ≡ contents.now) }
    {
        HeldLog {
            log,
            contents,
            header: held_frames::ring_header(log),
        }
    }
}
