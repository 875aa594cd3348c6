// The turn and its bytes.
ghost use Rattle.std.specs.Prelude.{◌≡◌, ◌+◌, ◌≤◌, length};
ghost use Rattle.std.proofs.lemmas.List.Edits.{sets};
ghost use Rattle.record.specs.Layout.{turn_size};
ghost use Rattle.record.specs.Bytes.{turn_of, turn_bytes};

use crate::layout;
use crate::turn::Turn;
use frames::{MessageNumber, TokenNumber};
use words::Word;

pub fn get_turn(s: &[u8]) -> Turn
    requires { turn_size ≤ length s.now }
    ensures { result ≡ turn_of s.now }
{
    let mut token = [0u8; frames::LONGEST_TOKEN];
    words::get_slice(s, layout::TOKEN_AT, frames::LONGEST_TOKEN, &mut token);
    Turn {
        aru: MessageNumber(u32::get(s, layout::TURN_ARU_AT)),
        earlier: MessageNumber(u32::get(s, layout::EARLIER_AT)),
        number: TokenNumber(u32::get(s, layout::TURN_NUMBER_AT)),
        broadcast: u8::get(s, layout::BROADCAST_AT),
        stall: u8::get(s, layout::STALL_AT),
        waited: u8::get(s, layout::WAITED_AT),
        size: u8::get(s, layout::TOKEN_SIZE_AT),
        token,
    }
}

pub fn put_turn(out: &mut [u8], at: usize, t: Turn)
    requires { at + turn_size ≤ length out.old }
    ensures { out.new ≡ sets out.old at (turn_bytes t) }
{
    let token = t.token;
    u32::put(out, at + layout::TURN_ARU_AT, t.aru.0);
    u32::put(out, at + layout::EARLIER_AT, t.earlier.0);
    u32::put(out, at + layout::TURN_NUMBER_AT, t.number.0);
    u8::put(out, at + layout::BROADCAST_AT, t.broadcast);
    u8::put(out, at + layout::STALL_AT, t.stall);
    u8::put(out, at + layout::WAITED_AT, t.waited);
    u8::put(out, at + layout::TOKEN_SIZE_AT, t.size);
    words::put_slice(out, at + layout::TOKEN_AT, &token);
}
