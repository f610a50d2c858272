//! The mask of a round.

ghost use Rattle.std.specs.Prelude.{◌≡◌, ◌^◌, ◌<◌, ◌≤◌, length};
ghost use Rattle.driver.specs.Spoken.{Spoken};

use talk::{Say, in_mask, mask_with};

// The mask of those who were in the mask before and speak in time. Who speaks late is not in it.
pub(crate) fn spoken_mask(words: &[Say], before: u32) -> u32
    requires { length words.now ≤ 30 }
    ensures mask { result < 2 ^ length words.now }
    ensures spoken { Spoken before result 1 words.now }
{
    let mut mask = 0;
    let mut seat = 1;
    for word in words {
        mask = mask_with(mask, seat, in_mask(before, seat) && word.speaks());
        seat += 1;
    }
    mask
}
