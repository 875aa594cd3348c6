// Founding a ring: every member's station on one list and ring number.
ghost use Rattle.std.specs.Prelude.{◌≡◌, ℕ, ◌*◌, ◌≤◌, List, length, get_or};
ghost use Rattle.record.specs.Layout.{record_size};
ghost use Rattle.station.specs.Answer.{outcome_of};
ghost use Rattle.visit.specs.Output.{followed_by};
ghost use Rattle.station.specs.Over.{ids_in, found_over};
ghost use Rattle.ring.specs.Stations.{record_at, records_after, ring_founded, founded_up_to, ring_after};

use crate::{members, stations};
use frames::RingNumber;
use station::{Outcome, Refusal};

// The member at a place founds its own station. Past the list's end, as where the list is empty, its id
// is 0.
fn found_at(
    records: &mut [u8],
    place: usize,
    list: &[u8],
    ring: RingNumber,
    token: &mut [u8],
) -> Outcome
    ensures { (result ≡ outcome_of
        (found_over (record_at place records.old) list.now (get_or (ids_in list.now) place 0) ring.0 (length token.old)).answer)
        × (records.new ≡ records_after place
        (found_over (record_at place records.old) list.now (get_or (ids_in list.now) place 0) ring.0 (length token.old))
        records.old)
        × (token.new ≡ followed_by
        (found_over (record_at place records.old) list.now (get_or (ids_in list.now) place 0) ring.0 (length token.old)).frames
        token.old) }
{
    let own = members::id_at(list, place).unwrap_or(0);
    let from = stations::start_of(records, place);
    let end = stations::end_of(records, place);
    totem::totem_found(&mut records[from..end], list, own, ring.0, token)
}

// The members after the first found theirs. The first has written the ring's first token: theirs is
// the same.
fn found_others(records: &mut [u8], list: &[u8], ring: RingNumber, n: usize)
    ensures { (before : List ℕ) → 1 ≤ n → record_size * n ≤ length before
        → records.old ≡ founded_up_to list.now ring.0 before 1
        → records.new ≡ founded_up_to list.now ring.0 before n }
{
    let mut token = [0u8; frames::SHORTEST_TOKEN];
    for place in 1..n {
        found_at(records, place, list, ring, &mut token);
    }
}

// Founds the station of every member, at its place, and writes the ring's first token. A refusal
// alters nothing. Ruled out: one station founded and another refused; two stations with one id.
pub fn found_ring(records: &mut [u8], list: &[u8], ring: RingNumber, token: &mut [u8]) -> Outcome
    ensures { (result ≡ outcome_of (ring_founded records.old list.now ring.0 (length token.old)).answer)
        × (records.new ≡ ring_after records.old list.now ring.0 (length token.old))
        × (token.new ≡ followed_by
        (ring_founded records.old list.now ring.0 (length token.old)).frames
        token.old) }
{
    let n = members::id_count(list);
    if records.len() / record::RECORD_SIZE < n {
        return Outcome::from(Err(Refusal::NoRoom));
    }
    let first = found_at(records, 0, list, ring, token);
    if first.refusal != 0 {
        return first;
    }
    found_others(records, list, ring, n);
    first
}
