// The head of the waiting posts and its bytes. The contents that stand after it are left alone.
ghost use Rattle.std.specs.Prelude.{◌≡◌, ◌+◌, ◌≤◌, length};
ghost use Rattle.std.proofs.lemmas.List.Edits.{sets};
ghost use Rattle.record.specs.Layout.{posts_size};
ghost use Rattle.record.specs.Bytes.{posts_of, posts_bytes};
ghost use Rattle.record.specs.inner.Head.{posts_on, waiting_in};

use crate::head::PostsHead;
use crate::{layout, size};
use words::Word;

pub fn get_posts_head(s: &[u8]) -> PostsHead
    requires { posts_size ≤ length s.now }
    ensures { posts_on result (waiting_in s.now 0) ≡ posts_of s.now }
{
    let mut services = [0u16; size::MOST_POSTS];
    words::get_run(s, layout::POST_SERVICES_AT, size::MOST_POSTS, &mut services);
    let mut lengths = [0u8; size::MOST_POSTS];
    words::get_slice(s, layout::POST_LENGTHS_AT, size::MOST_POSTS, &mut lengths);
    PostsHead {
        count: u8::get(s, layout::POST_COUNT_AT),
        services,
        lengths,
    }
}

pub fn put_posts_head(out: &mut [u8], at: usize, p: PostsHead)
    requires { at + posts_size ≤ length out.old }
    ensures { out.new ≡ sets out.old at (posts_bytes (posts_on p (waiting_in out.old at))) }
{
    let services = p.services;
    let lengths = p.lengths;
    u8::put(out, at + layout::POST_COUNT_AT, p.count);
    words::put_run(out, at + layout::POST_SERVICES_AT, &services);
    words::put_slice(out, at + layout::POST_LENGTHS_AT, &lengths);
}
