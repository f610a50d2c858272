//! Who is missing in an arrivals word.
ghost use Rattle.std.specs.Prelude.{◌≡◌, ℕ, ◌+◌, ◌^◌, ◌<◌, ◌≤◌, ◌↔◌, IsTrue, IsFalse, bit_or};
ghost use Rattle.paces.specs.Picks.{Picked, IsMissing};

// Whether the place has neither its posted nor its passed bit.
fn is_missing(word: u64, place: u32) -> bool
    requires { place < 30 }
    ensures { IsTrue result ↔ IsMissing word place }
{
    (word >> place) % 2 == 0 && (word >> (30 + place)) % 2 == 0
}

// The seats whose bits are set neither as posted nor as passed.
pub(crate) fn missing_in(word: u64, seats: u32) -> u32
    requires { seats ≤ 30 }
    ensures { Picked seats (IsMissing word) result }
{
    let mut missing = 0u32;
    for place in 0..seats {
        missing = with_place(missing, place, is_missing(word, place));
    }
    missing
}

// The mask with one more place, where that is chosen.
pub(crate) fn with_place(mask: u32, place: u32, chosen: bool) -> u32
    requires { place < 32 }
    ensures yes { IsTrue chosen → result ≡ bit_or mask (2 ^ place) }
    ensures not { IsFalse chosen → result ≡ mask }
{
    if chosen { mask | bit_of(place) } else { mask }
}

// The bit of a place.
fn bit_of(place: u32) -> u32
    requires { place < 32 }
    ensures { result ≡ 2 ^ place }
{
    1 << place
}
