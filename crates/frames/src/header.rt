// What every frame begins with: length, kind, ring number, representative's id.
ghost use Rattle.std.specs.Prelude.{◌≡◌, ◌≤◌, length, IfSome};
ghost use Rattle.std.proofs.lemmas.List.Edits.{sets};
ghost use Rattle.frames.specs.Header.{framed_size, header_of, header_follows, header_bytes};
ghost use Rattle.frames.specs.Layout.{length_size, most_framed, header_size};

use crate::number::RingNumber;
use crate::{layout, number};
use words::Word;

#[derive(Clone, Copy, Debug, PartialEq, Eq, Hash)]
pub struct Header {
    pub ring: RingNumber,
    pub representative: u16,
}

// How long the frame is that a stream of bytes begins with, by its own length field; none while
// that field has not come whole. Ruled out: the length field's own bytes not counted; a guess from one
// byte.
#[tactic(auto, unfolding(crate::specs::Header::framed_size))]
pub fn framed_size(stream: &[u8]) -> Option<usize>
    ensures value { result ≡ framed_size stream.now }
    ensures upper_bound { IfSome result (λ n. n ≤ most_framed) }
{
    if stream.len() < layout::LENGTH_SIZE {
        return None;
    }
    Some(layout::LENGTH_SIZE + u16::get(stream, layout::LENGTH_AT) as usize)
}

#[tactic(auto, unfolding(crate::specs::Header::header_of))]
pub fn header_of(frame: &[u8]) -> Header
    requires { header_size ≤ length frame.now }
    ensures { result ≡ header_of frame.now }
{
    Header {
        ring: RingNumber(u32::get(frame, layout::RING_AT)),
        representative: u16::get(frame, layout::REPRESENTATIVE_AT),
    }
}

#[tactic(auto, unfolding(crate::specs::Header::header_follows))]
pub fn header_follows(h: Header) -> bool
    ensures { result ≡ header_follows h }
{
    number::is_number(h.ring.0) & number::is_id(h.representative)
}

// The header of a frame of `size` bytes in all; the length field has the low two bytes of what follows it.
#[tactic(auto, using(crate::proofs::PutLaws::header_stored))]
pub fn put_header(out: &mut [u8], size: usize, kind: u16, h: Header)
    requires { (header_size ≤ length out.old) × (length_size ≤ size) }
    ensures { out.new ≡ sets out.old 0 (header_bytes size kind h) }
{
    let length = size - layout::LENGTH_SIZE;
    u16::put(out, layout::LENGTH_AT, (length % 65536) as u16);
    u16::put(out, layout::KIND_AT, kind);
    u32::put(out, layout::RING_AT, h.ring.0);
    u16::put(out, layout::REPRESENTATIVE_AT, h.representative);
}
