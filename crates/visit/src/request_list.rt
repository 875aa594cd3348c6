// Up to 16 message numbers, in a token's places: the first `count` of them, the others 0. A clause sees their list.
ghost use Rattle.std.specs.Prelude.{◌≡◌, [], ◌∷◌, ◌++◌, ◌<◌, length, leb};
ghost use Rattle.frames.specs.Layout.{most_requests};
ghost use Rattle.visit.specs.inner.Places.{padded};

use std::marker::Model;

#[derive(Clone, Copy)]
pub struct Requests {
    numbers: [u32; frames::MOST_REQUESTS],
    count: u16,
}

impl Model for Requests {
    ghost use Rattle.std.specs.Prelude.{◌≡◌, ℕ, List, length, take};
    ghost use Rattle.visit.specs.inner.Places.{padded};

    ghost Value = { List ℕ };

    ghost view = { λ r. take r.count r.numbers };

    ghost invariant = { λ r. (padded (take r.count r.numbers) ≡ r.numbers) × (length (take r.count r.numbers) ≡ r.count) };

    ghost inverse = { λ xs. record { numbers = padded xs; count = length xs } };

    ghost inverse_ok = { λ r h i. record { numbers = h.0 i; count = h.1 i } };
}

// Ruled out, of all of them: a number past the 16th taken; a place past the list that isn't 0.
impl Requests {
    pub fn none() -> Self
        ensures { result ≡ [] }
    {
        Requests {
            numbers: [0; frames::MOST_REQUESTS],
            count: 0,
        }
    }

    pub fn len(&self) -> u16
        ensures { result ≡ length self.now }
    {
        self.count
    }

    pub fn is_full(&self) -> bool
        ensures { result ≡ leb most_requests (length self.now) }
    {
        frames::MOST_REQUESTS <= self.count as usize
    }

    // One more, behind the others. The count comes from the place: read again behind the store of the number, it would
    // come from memory at each push, and a visit with 16 requests took up to 1.1 times as long.
    pub fn push(&mut self, n: u32)
        requires { length self.old < most_requests }
        ensures { self.new ≡ self.old ++ n ∷ [] }
    {
        let place = self.count as usize;
        self.numbers[place] = n;
        self.count = place as u16 + 1;
    }

    pub fn as_slice(&self) -> &[u32]
        ensures { result.now ≡ self.now }
    {
        &self.numbers[0..self.count as usize]
    }

    // All 16 places, as they stand in a token.
    pub fn places(&self) -> [u32; frames::MOST_REQUESTS]
        ensures { result ≡ padded self.now }
    {
        self.numbers
    }
}
