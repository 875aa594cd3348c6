// What a log holds: is a number held, a message is held, and everything up to a new safe mark is let go.
// A message's place follows from its number alone.
ghost use Rattle.std.specs.Prelude.{◌≡◌, not, ◌&&◌, ◌+◌, ◌*◌, ◌-◌, ◌%◌, ◌≤◌, ◌<◌, length, get_or, ltb, leb, eqb};
ghost use Rattle.std.proofs.lemmas.List.Edits.{sets};
ghost use Rattle.frames.specs.Number.{most_number};
ghost use Rattle.frames.specs.Layout.{most_content};
ghost use Rattle.record.specs.Size.{most_held, held_contents};
ghost use Rattle.record.specs.inner.Head.{log_on};
ghost use Rattle.record.specs.inner.Places.{before_in};
ghost use Rattle.record.specs.Held.{place_of, stored, let_go};

use crate::head::LogHead;
use crate::size;
use frames::{Message, MessageNumber};

// A number's place. Ruled out: the place of the number before; one place for all.
pub fn place_of(n: MessageNumber) -> usize
    ensures { result ≡ place_of n.0 }
{
    n.0 as usize % size::MOST_HELD
}

// Is this number held, by the safe mark and the senders of all places? They are lent, so that a loop copies
// nothing. Ruled out: yes to a number at the safe mark; no to safe mark + 32 where it is held.
pub fn is_held(safe: MessageNumber, senders: &[u16; size::MOST_HELD], n: MessageNumber) -> bool
    requires { safe.0 ≤ most_number }
    ensures { result ≡ (ltb safe.0 n.0
        && leb n.0 (safe.0 + most_held)
        && not (eqb (get_or senders.now (place_of n.0) 0) 0)) }
{
    (safe.0 < n.0) & (n.0 <= safe.0 + size::MOST_HELD as u32) & (senders[place_of(n)] != 0)
}

// How many numbers above the safe mark come before the one that a place is for. Ruled out: the safe mark's own
// place first; a place counted from another mark.
pub fn numbers_before(safe: MessageNumber, place: usize) -> u32
    requires { place < most_held }
    ensures { result ≡ before_in safe.0 place }
{
    let most = size::MOST_HELD as u32;
    (place as u32 + most - 1 - safe.0 % most) % most
}

// A content at its place among those held. Contents that are written stay a slice: of an array that is taken from one
// (`as_mut_array().unwrap()`) the proof knows only its length once it goes back.
fn put_content(contents: &mut [u8], place: usize, content: &[u8])
    requires { (place ≤ 31) × (length content.now ≤ most_content) × (length contents.old ≡ held_contents) }
    ensures { contents.new ≡ sets contents.old (most_content * place) content.now }
{
    words::put_slice(contents, frames::MOST_CONTENT * place, content);
}

// A message is held under its number. Ruled out: another number's message written over; a mark changed.
pub fn store(l: LogHead, contents: &mut [u8], m: Message, content: &[u8]) -> LogHead
    requires { (length content.now ≤ most_content) × (length contents.old ≡ held_contents) }
    ensures { log_on result contents.new
        ≡ stored (log_on l contents.old) m.number.0
        (record { sender = m.sender; service = m.service; content = content.now }) }
{
    let place = place_of(m.number);
    let mut log = l;
    log.senders[place] = m.sender;
    log.services[place] = m.service;
    log.lengths[place] = content.len() as u8;
    put_content(contents, place, content);
    log
}

// Everything up to a new safe mark is let go. Ruled out: the mark's own message kept; one above it let go.
pub fn let_go(l: LogHead, contents: &mut [u8], safe: MessageNumber) -> LogHead
    requires { (l.safe.0 ≤ safe.0) × (safe.0 ≤ most_number) × (length contents.old ≡ held_contents) }
    ensures { log_on result contents.new ≡ let_go (log_on l contents.old) safe.0 }
{
    let mut log = l;
    for n in l.safe.0 + 1..safe.0 + 1 {
        let place = place_of(MessageNumber(n));
        log.senders[place] = 0;
        log.services[place] = 0;
        log.lengths[place] = 0;
        put_content(contents, place, &[0u8; frames::MOST_CONTENT]);
    }
    log.safe = safe;
    log
}
