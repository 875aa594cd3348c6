// New messages: posts become messages of one's own, under the numbers after the highest. Step 3. The head with
// them comes first, for the token that is forwarded; their contents move when nothing reads the old ones any more.
ghost use Rattle.std.specs.Prelude.{◌≡◌, true, ℕ, ◌+◌, ◌≤◌, length, take, drop};
ghost use Rattle.frames.specs.Number.{most_number};
ghost use Rattle.record.specs.inner.Head.{log_on, posts_on, head_of, contents_in, waiting_in};
ghost use Rattle.record.specs.Layout.{record_size, log_at, turn_at, posts_at};
ghost use Rattle.record.specs.Posts.{waiting};
ghost use Rattle.record.specs.Whole.{posts_in_range};
ghost use Rattle.record.specs.declared.head.LogHead.{LogHead as Head-as-LogHead};
ghost use Rattle.visit.specs.Visit.{log, own, posts, with_sent};
ghost use Rattle.visit.specs.inner.Steps.{visit_of};

use crate::token_visit::TokenVisit;
use frames::MessageNumber;
use record::{LogHead, PostsHead};

impl TokenVisit<'_> {
    // The head of the log in which the n oldest posts are held, each under the highest number + 1. Ruled out: the
    // newest post first; a number left out.
    pub fn hold_new(&self, n: u32) -> LogHead
        requires { (n ≤ self.now.head.now.posts.count) × (self.now.token.now.highest.0 + n ≤ most_number) }
        ensures { result ≡ head_of (with_sent
            (log (visit_of self.now)) (own (visit_of self.now)) self.now.token.now.highest.0
            (take n (waiting (posts (visit_of self.now))))) }
    {
        let posts = &self.head.posts;
        let log = self.head.log;
        let highest = self.token.highest.0;
        let mut senders = log.senders;
        let mut services = log.services;
        let mut lengths = log.lengths;
        for i in 0..n {
            let post = i as usize;
            let place = (highest + i + 1) as usize % record::MOST_HELD;
            senders[place] = self.head.own;
            services[place] = posts.services[post];
            lengths[place] = posts.lengths[post];
        }
        LogHead {
            senders,
            services,
            lengths,
            ..log
        }
    }
}

// Their contents go from the posts to where they are held. Ruled out: another post's content; a post's own
// changed.
pub fn place_new(s: &mut [u8], posts: &PostsHead, highest: MessageNumber, n: u32)
    requires { (length s.old ≡ record_size)
        × (posts_in_range (posts_on posts.now (waiting_in s.old posts_at)) ≡ true)
        × (n ≤ posts.now.count)
        × (highest.0 + n ≤ most_number) }
    ensures { ((l : Head-as-LogHead) (own : ℕ) → contents_in s.new log_at
        ≡ (with_sent (log_on l (contents_in s.old log_at)) own highest.0
        (take n (waiting (posts_on posts.now (waiting_in s.old posts_at))))).held.contents)
        × (drop turn_at s.new ≡ drop turn_at s.old) }
{
    for i in 0..n {
        let post = i as usize;
        let size = posts.lengths[post] as usize;
        record::hold_content_in(s, post, size, MessageNumber(highest.0 + i + 1));
    }
}
