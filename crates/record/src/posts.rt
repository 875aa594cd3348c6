// The posts that wait for the token: the first `count` places, oldest first; the others are 0.
// Contents stand 64 bytes apart, zero past their lengths. Arrays side by side, as the record's bytes are, with no heap.
ghost use Rattle.std.specs.Prelude.{◌≡◌, ◌++◌, ◌*◌, ◌-◌, ◌≤◌, ◌<◌, length, take, drop, replicate};
ghost use Rattle.frames.specs.Layout.{most_content};
ghost use Rattle.record.specs.Size.{most_posts, post_contents};
ghost use Rattle.record.specs.inner.Head.{posts_on};
ghost use Rattle.record.specs.Posts.{queued, taken};

use crate::head::PostsHead;
use crate::size;

#[derive(Clone, Copy)]
pub struct Posts {
    pub count: u8,
    pub services: [u16; size::MOST_POSTS],
    pub lengths: [u8; size::MOST_POSTS],
    pub contents: [u8; size::POST_CONTENTS],
}

// One post more, behind the others: its content goes where the contents are lent. Ruled out: an older one written over; the count left as it was.
pub fn queue_on(p: PostsHead, waiting: &mut [u8], service: u16, content: &[u8]) -> PostsHead
    requires { (p.count < most_posts) × (length content.now ≤ most_content) × (length waiting.old ≡ post_contents) }
    ensures { posts_on result waiting.new ≡ queued (posts_on p waiting.old) service content.now }
{
    let mut services = p.services;
    let mut lengths = p.lengths;
    let place = p.count as usize;
    services[place] = service;
    lengths[place] = content.len() as u8;
    words::put_slice(waiting, frames::MOST_CONTENT * place, content);
    PostsHead {
        count: p.count + 1,
        services,
        lengths,
    }
}

// The contents from place `first` on move to the front, one by one.
fn move_up(waiting: &mut [u8], first: usize)
    requires { (first ≤ most_posts) × (length waiting.old ≡ post_contents) }
    ensures { waiting.new
        ≡ take (most_content * (most_posts - first)) (drop (most_content * first) waiting.old)
        ++ drop (most_content * (most_posts - first)) waiting.old }
{
    waiting.copy_within(frames::MOST_CONTENT * first.., 0);
}

// The contents from a place on are cleared.
fn clear_from(waiting: &mut [u8], first: usize)
    requires { (first ≤ most_posts) × (length waiting.old ≡ post_contents) }
    ensures { waiting.new
        ≡ take (most_content * first) waiting.old ++ replicate (most_content * (most_posts - first)) 0 }
{
    waiting[frames::MOST_CONTENT * first..].fill(0);
}

// Without the n oldest: the others move up, in the contents that are lent too. Ruled out: the newest taken; a
// content left behind.
pub fn take_oldest(p: PostsHead, waiting: &mut [u8], n: u8) -> PostsHead
    requires { (n ≤ p.count) × (p.count ≤ most_posts) × (length waiting.old ≡ post_contents) }
    ensures { posts_on result waiting.new ≡ taken (posts_on p waiting.old) n }
{
    if n == 0 {
        return p;
    }
    let waiting_services = p.services;
    let waiting_lengths = p.lengths;
    let mut services = [0u16; size::MOST_POSTS];
    let mut lengths = [0u8; size::MOST_POSTS];
    let first = n as usize;
    let rest = size::MOST_POSTS - first;
    words::get_slice(&waiting_services, first, rest, &mut services);
    words::get_slice(&waiting_lengths, first, rest, &mut lengths);
    move_up(waiting, first);
    clear_from(waiting, rest);
    PostsHead {
        count: p.count - n,
        services,
        lengths,
    }
}
