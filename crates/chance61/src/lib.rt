//! Field elements and grids drawn from the words of ChaCha20.
#![tactic(auto)]

ghost use Rattle.std.specs.Prelude.{◌≡◌, ℕ, ◌+◌, ◌*◌, ◌≤◌, ◌<◌, ◌^◌, ◌++◌, List, [], length, get_or, IfOk, OnErr, All};
ghost use Rattle.algebra61.specs.Field.{Fp, zeroₚ};
ghost use Rattle.algebra61.specs.Grid.{grid_at};
ghost use Rattle.bivar61.specs.Grids.{IsGrid};
ghost use Rattle.chance61.specs.Draws.{Source, candidate, two_after, element_drawn, elements_drawn, grid_drawn, five_grids_drawn, grid_drawn_with, five_grids_drawn_with};

use bivar61::{Grid, GridList};
use field61::{Fe, FeList};
use lists::OutOfMemory;
use rand_chacha::ChaCha20Rng;
use rand_core::SeedableRng;
use rand_core::utils::NextWord;
use std::alloc::Global;
use std::marker::Model;

// How many candidates a draw looks at.
const TRIES: u32 = 4;

// How many lanes a key has: one grid is drawn for each.
const LANES: u32 = 5;

// Candidates are below this number.
const CANDIDATES: u64 = 1 << 61;

/// A source of field elements: the words of ChaCha20 under a seed, stream 0.
///
/// A contract sees it as its seed and the number of words that were taken, modulo 2^68.
#[derive(Drop)]
pub struct Chance {
    seed: [u8; 32],
    words: ChaCha20Rng,
}

impl Model for Chance {
    ghost use Rattle.std.specs.Prelude.{◌≡◌};
    ghost use Rattle.rand_chacha.specs.ChaCha.{key_of};
    ghost use Rattle.chance61.specs.Draws.{Source};

    ghost Value = { Source };

    ghost view = { λ a. record { seed = a.seed; taken = a.words.word_pos } };

    ghost invariant = { λ a. (a.words.key ≡ key_of a.seed) × (a.words.stream ≡ 0) };
}

impl Chance {
    /// The source with this seed, of which no word was taken.
    pub fn from_seed(seed: [u8; 32]) -> Chance
        ensures { result ≡ record { seed = seed; taken = 0 } }
    {
        Chance {
            seed,
            words: ChaCha20Rng::from_seed(seed),
        }
    }

    // A source that stands where this one stands.
    fn copy(&self) -> Result<Chance, OutOfMemory>
        ensures { IfOk result (λ c. c ≡ self.now) }
    {
        Ok(Chance {
            seed: self.seed,
            words: self.words.clone()?,
        })
    }

    // The low 61 bits of the next two words, of which the first is the low half.
    fn candidate(&mut self) -> u64
        ensures value { result ≡ candidate self.old.seed self.old.taken }
        ensures after { self.new
            ≡ record { seed = self.old.seed; taken = two_after self.old.taken } }
    {
        let low = u64::from(self.words.next_word());
        let high = u64::from(self.words.next_word());
        ((high << 32) + low) % CANDIDATES
    }

    /// The next element: the first of at most four candidates that is below P, or 0 where all four
    /// are P. A candidate is the low 61 bits of the next two words, the low half first. The next
    /// draw goes on after the last word that was used.
    pub fn draw(&mut self) -> Fe
        ensures value { result ≡ (element_drawn self.old.seed self.old.taken).0 }
        ensures after { self.new ≡ record {
          seed = self.old.seed;
          taken = (element_drawn self.old.seed self.old.taken).1;
        } }
    {
        for _try in 0..TRIES {
            if let Some(element) = Fe::from_u64(self.candidate()) {
                return element;
            }
        }
        Fe::ZERO
    }

    // The elements, with as many of the next ones behind them.
    fn draw_behind(&mut self, mut elements: FeList, count: usize) -> Result<FeList, OutOfMemory>
        ensures elements { IfOk result (λ l.
            l ≡ elements ++ (elements_drawn count self.old.seed self.old.taken).0) }
        ensures after { IfOk result (λ _. self.new ≡ record {
          seed = self.old.seed;
          taken = (elements_drawn count self.old.seed self.old.taken).1;
        }) }
    {
        for _drawn in 0..count {
            elements.push(self.draw())?;
        }
        Ok(elements)
    }

    /// A grid of degree `d`, at most 14, whose elements are drawn in the order in which
    /// `Grid::from_elements` takes them. After `OutOfMemory` no word was taken.
    pub fn draw_grid(&mut self, alloc: Global, d: u32) -> Result<Grid, OutOfMemory>
        requires { d ≤ 14 }
        ensures grid { IfOk result (λ g. g ≡ (grid_drawn d self.old.seed self.old.taken).0) }
        ensures shape { IfOk result (IsGrid d) }
        ensures after { IfOk result (λ _. self.new ≡ record {
          seed = self.old.seed;
          taken = (grid_drawn d self.old.seed self.old.taken).1;
        }) }
        ensures kept { OnErr result (self.new ≡ self.old) }
    {
        let mut ahead = self.copy()?;
        let width = d as usize + 1;
        let elements = ahead.draw_behind(FeList::new(alloc), width * width)?;
        let grid = Grid::from_elements(alloc, d, elements.as_slice())?;
        *self = ahead;
        Ok(grid)
    }

    /// Five grids of degree `d`, at most 14, one for each lane of a key, one after another. After
    /// `OutOfMemory` no word was taken.
    pub fn draw_grids(&mut self, alloc: Global, d: u32) -> Result<GridList, OutOfMemory>
        requires { d ≤ 14 }
        ensures grids { IfOk result (λ l.
            l ≡ (five_grids_drawn d self.old.seed self.old.taken).0) }
        ensures shapes { IfOk result (All (IsGrid d)) }
        ensures after { IfOk result (λ _. self.new ≡ record {
          seed = self.old.seed;
          taken = (five_grids_drawn d self.old.seed self.old.taken).1;
        }) }
        ensures kept { OnErr result (self.new ≡ self.old) }
    {
        let mut ahead = self.copy()?;
        let mut grids = GridList::new(alloc);
        for _lane in 0..LANES {
            grids.push(ahead.draw_grid(alloc, d)?)?;
        }
        *self = ahead;
        Ok(grids)
    }

    // A grid of the degree with this constant, whose other elements are drawn.
    fn draw_grid_with(
        &mut self,
        alloc: Global,
        degree: u32,
        constant: Fe,
    ) -> Result<Grid, OutOfMemory>
        requires { degree ≤ 14 }
        ensures grid { IfOk result (λ g. g ≡ (grid_drawn_with degree self.old.seed constant self.old.taken).0) }
        ensures shape { IfOk result (IsGrid degree) }
        ensures after { IfOk result (λ _. self.new ≡ record {
          seed = self.old.seed;
          taken = (grid_drawn_with degree self.old.seed constant self.old.taken).1;
        }) }
    {
        let width = degree as usize + 1;
        let mut elements = FeList::new(alloc);
        elements.push(constant)?;
        let elements = self.draw_behind(elements, width * width - 1)?;
        let made = Grid::from_elements(alloc, degree, elements.as_slice())?;
        Ok(made)
    }

    /// Five grids of the degree, at most 14, one for each lane of a key, with given constants: in each lane the
    /// other elements are drawn, in the order in which `Grid::from_elements` takes them. After `OutOfMemory` no
    /// word was taken.
    pub fn draw_grids_with(
        &mut self,
        alloc: Global,
        degree: u32,
        constants: &[Fe; 5],
    ) -> Result<GridList, OutOfMemory>
        requires { degree ≤ 14 }
        ensures grids { IfOk result (λ l.
            l ≡ (five_grids_drawn_with degree constants.now self.old.seed self.old.taken).0) }
        ensures five { IfOk result (λ l. length l ≡ 5) }
        ensures shapes { IfOk result (All (IsGrid degree)) }
        ensures constants { IfOk result (λ l. (lane : ℕ) → lane < 5
            → grid_at (get_or l lane []) zeroₚ zeroₚ ≡ get_or constants.now lane zeroₚ) }
        ensures after { IfOk result (λ _. self.new ≡ record {
          seed = self.old.seed;
          taken = (five_grids_drawn_with degree constants.now self.old.seed self.old.taken).1;
        }) }
        ensures kept { OnErr result (self.new ≡ self.old) }
    {
        let mut ahead = self.copy()?;
        let mut grids = GridList::new(alloc);
        for constant in constants {
            grids.push(ahead.draw_grid_with(alloc, degree, *constant)?)?;
        }
        *self = ahead;
        Ok(grids)
    }
}

#[cfg(test)]
mod tests {
    use super::*;
    use std::test::Fail;

    // RFC 8439, appendix A.1, first vector: the words of the zero key.
    #[test]
    fn the_zero_seed_draws_from_the_first_words_of_the_standard(rt: HostRuntime) {
        let mut words = ChaCha20Rng::from_seed([0; 32]);
        for word in [0xade0b876, 0x903df1a0, 0xe56a5d40, 0x28bd8653] {
            assert_eq!(rt; words.next_word(), word);
        }
        let mut chance = Chance::from_seed([0; 32]);
        for number in [0x103d_f1a0_ade0_b876, 0x08bd_8653_e56a_5d40] {
            assert_eq!(rt; chance.draw().get(), number);
        }
    }

    #[test]
    fn grids_are_made_of_the_draws_in_turn(rt: HostRuntime) -> Result<(), Fail> {
        let mut chance = Chance::from_seed([0; 32]);
        let grid = chance.draw_grid(rt.alloc(), 0)?;
        assert_eq!(rt; grid.coeff(0, 0).get(), 0x103d_f1a0_ade0_b876);
        assert_eq!(rt; chance.draw().get(), 0x08bd_8653_e56a_5d40);
        let grids = Chance::from_seed([0; 32]).draw_grids(rt.alloc(), 0)?;
        assert_eq!(rt; grids.len(), 5);
        assert_eq!(rt;
            grids.at(0).at(Fe::ZERO, Fe::ZERO).get(),
            0x103d_f1a0_ade0_b876
        );
        assert_eq!(rt;
            grids.at(1).at(Fe::ZERO, Fe::ZERO).get(),
            0x08bd_8653_e56a_5d40
        );
        Ok(())
    }

    // The constants 11 to 15.
    fn constants() -> [Fe; 5] {
        [
            Fe::reduce(11),
            Fe::reduce(12),
            Fe::reduce(13),
            Fe::reduce(14),
            Fe::reduce(15),
        ]
    }

    // The first draws are the coefficients of y and of x in the first lane.
    #[test]
    fn given_constants_are_not_drawn(rt: HostRuntime) -> Result<(), Fail> {
        let mut chance = Chance::from_seed([0; 32]);
        let grids = chance.draw_grids_with(rt.alloc(), 1, &constants())?;
        assert_eq!(rt; grids.len(), 5);
        assert_eq!(rt; grids.at(0).at(Fe::ZERO, Fe::ZERO).get(), 11);
        assert_eq!(rt; grids.at(4).at(Fe::ZERO, Fe::ZERO).get(), 15);
        assert_eq!(rt;
            grids.at(0).at(Fe::ZERO, Fe::ONE).get(),
            0x103d_f1a0_ade0_b876 + 11
        );
        assert_eq!(rt;
            grids.at(0).at(Fe::ONE, Fe::ZERO).get(),
            0x08bd_8653_e56a_5d40 + 11
        );
        Ok(())
    }
}
