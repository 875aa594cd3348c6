// Circulation order.
ghost use Rattle.std.specs.Prelude.{◌≡◌};
ghost use Rattle.visit.specs.Visit.{next_member};

// The member after `own`; after the last comes the first. Ruled out: oneself; always the representative.
pub fn next_member(ids: &[u16], own: u16) -> u16
    ensures { result ≡ next_member ids.now own }
{
    match ids.iter().position(|id| *id == own) {
        Some(i) if i + 1 < ids.len() => ids[i + 1],
        _ => record::representative_of(ids),
    }
}
