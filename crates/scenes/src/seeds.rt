//! Seeds of a rehearsal.

ghost use Rattle.std.specs.Prelude.{◌≡◌};
ghost use Rattle.scenes.specs.Numbers.{seed_of};

use byteorder::{BigEndian, ByteOrder};

/// The seed of the member on a seat in a phase of the rehearsal from a number: number, phase, seat and 0 in eight bytes each,
/// most significant first.
pub fn seed_of(number: u32, phase: u32, seat: u32) -> [u8; 32]
    ensures { result ≡ seed_of number phase seat }
{
    let mut seed = [0; 32];
    BigEndian::write_u64(&mut seed, u64::from(number));
    BigEndian::write_u64(&mut seed[8..], u64::from(phase));
    BigEndian::write_u64(&mut seed[16..], u64::from(seat));
    BigEndian::write_u64(&mut seed[24..], 0);
    seed
}
