//! Linear equations, and the decoding of Reed-Solomon codes over the field of 2^61 - 1 elements.
//! The value at place k of a list (from 0) belongs to the point k + 1.
#![tactic(auto)]

ghost use Rattle.rs61.specs.Answers.{Decodes};

mod checks;
mod elimination;
mod errors;
mod matrix;
mod nearest;
mod rows;

pub use checks::syndrome;
pub use errors::error_of;
use field61::NumberList;
use lists::OutOfMemory;
pub use matrix::{Matrix, kernel_vector};
pub use nearest::decode;
use poly61::Poly;

/// The nearest polynomial of a list of values.
#[derive(Drop)]
pub struct Decoded {
    /// The polynomial.
    pub poly: Poly,
    /// The points at which it has another value than the present one, ascending.
    pub wrong: NumberList,
    /// The points without a value, ascending.
    pub missing: NumberList,
}

/// Why a list of values was not decoded.
#[derive(Clone, Copy, Debug, Drop, PartialEq, Eq)]
pub enum DecodeFault {
    /// No polynomial of the degree is near enough: exactly where none is nearest.
    NoPolynomial,
    /// Want of memory.
    OutOfMemory,
}

impl From<OutOfMemory> for DecodeFault {
    ghost use Rattle.std.specs.Prelude.{◌≡◌};
    ghost use Rattle.rs61.specs.declared.DecodeFault.TheVariants.{OutOfMemory};

    ghost from_gives = { λ _ e. e ≡ OutOfMemory };

    fn from(_e: lists::OutOfMemory) -> DecodeFault {
        DecodeFault::OutOfMemory
    }
}

/// Why a syndrome has no error vector.
#[derive(Clone, Copy, Debug, Drop, PartialEq, Eq)]
pub enum ErrorFault {
    /// No vector with so few entries other than 0 has this syndrome.
    NoError,
    /// Want of memory.
    OutOfMemory,
}

impl From<OutOfMemory> for ErrorFault {
    ghost use Rattle.std.specs.Prelude.{◌≡◌};
    ghost use Rattle.rs61.specs.declared.ErrorFault.TheVariants.{OutOfMemory};

    ghost from_gives = { λ _ e. e ≡ OutOfMemory };

    fn from(_e: lists::OutOfMemory) -> ErrorFault {
        ErrorFault::OutOfMemory
    }
}

#[cfg(test)]
mod tests {
    use super::*;
    use field61::{Fe, FeList};
    use std::alloc::Global;

    // The values, where a number that is no element stands for a missing one.
    fn values(alloc: Global, numbers: &[u64]) -> Result<Vec<Option<Fe>>, OutOfMemory> {
        let mut list = Vec::new(alloc);
        for v in numbers {
            list.push(Fe::from_u64(*v))?;
        }
        Ok(list)
    }

    // Whether the list holds exactly these numbers.
    fn holds(list: &NumberList, numbers: &[u32]) -> bool {
        list.as_slice() == numbers
    }

    // Whether the values decode to the line with these coefficients and these points.
    fn decodes(
        alloc: Global,
        list: &[Option<Fe>],
        line: &[u64; 2],
        wrong: &[u32],
        missing: &[u32],
    ) -> bool {
        if list.len() > 30 {
            return false;
        }
        match decode(alloc, list, 1) {
            Ok(found) => {
                found.poly.coeff(0).get() == line[0]
                    && found.poly.coeff(1).get() == line[1]
                    && found.poly.len() <= 2
                    && holds(&found.wrong, wrong)
                    && holds(&found.missing, missing)
            }
            Err(_) => false,
        }
    }

    // How many values are wrong by decode with degree 1, or none where it finds no polynomial.
    fn wrong_by_decode(alloc: Global, list: &[Option<Fe>]) -> Option<usize> {
        if list.len() > 30 {
            return None;
        }
        match decode(alloc, list, 1) {
            Ok(found) => Some(found.wrong.len()),
            Err(_) => None,
        }
    }

    // How many present values are off the line through places `i` and `j`.
    fn off_line(list: &[Option<Fe>], i: usize, j: usize) -> Option<usize> {
        let a = (*list.get(i)?)?;
        let b = (*list.get(j)?)?;
        let from = Fe::reduce(i as u64);
        let slope = b.sub(a).mul(Fe::reduce(j as u64).sub(from).inv()?);
        let mut wrong = 0usize;
        for (k, value) in list.iter().enumerate() {
            if let Some(v) = value {
                if slope.mul(Fe::reduce(k as u64).sub(from)).add(a) != *v {
                    wrong = wrong.saturating_add(1);
                }
            }
        }
        Some(wrong)
    }

    // The same by trying the line through each two places.
    fn wrong_by_search(list: &[Option<Fe>]) -> Option<usize> {
        let missing = list.iter().filter(|v| v.is_none()).count();
        for i in 0..list.len() {
            for j in 0..i {
                if let Some(wrong) = off_line(list, i, j) {
                    let needed = wrong.saturating_mul(2).saturating_add(missing);
                    if needed.saturating_add(2) <= list.len() {
                        return Some(wrong);
                    }
                }
            }
        }
        None
    }

    #[test]
    fn wrong_and_missing_values_are_named(rt: HostRuntime) -> Result<(), OutOfMemory> {
        let none = field61::P;
        let whole = values(rt.alloc(), &[10, 13, 16, 19])?;
        assert!(rt; decodes(rt.alloc(), whole.as_slice(), &[7, 3], &[], &[]));
        let zeros = values(rt.alloc(), &[0, 0, 0, 0])?;
        assert!(rt; decodes(rt.alloc(), zeros.as_slice(), &[0, 0], &[], &[]));
        let wrong = values(rt.alloc(), &[10, 13, 99, 19])?;
        assert!(rt; decodes(rt.alloc(), wrong.as_slice(), &[7, 3], &[3], &[]));
        let few = values(rt.alloc(), &[none, none, 16, 19])?;
        assert!(rt; decodes(rt.alloc(), few.as_slice(), &[7, 3], &[], &[1, 2]));
        Ok(())
    }

    #[test]
    fn too_many_faults_have_no_polynomial(rt: HostRuntime) -> Result<(), OutOfMemory> {
        let none = field61::P;
        let two_faults = values(rt.alloc(), &[none, 13, 99, 19])?;
        assert!(rt; wrong_by_decode(rt.alloc(), two_faults.as_slice()).is_none());
        let one_left = values(rt.alloc(), &[none, none, none, 19])?;
        assert!(rt; wrong_by_decode(rt.alloc(), one_left.as_slice()).is_none());
        Ok(())
    }

    #[test]
    fn decoding_agrees_with_a_search(rt: HostRuntime) -> Result<(), OutOfMemory> {
        let mut seed = 1u32;
        for case in 0..60usize {
            let mut list = Vec::new(rt.alloc());
            for _ in 0..4 + case % 4 {
                seed = seed.wrapping_mul(1664525).wrapping_add(1013904223);
                let number = u64::from(seed >> 16) % 4;
                list.push(if number < 3 {
                    Some(Fe::reduce(number))
                } else {
                    None
                })?;
            }
            let found = wrong_by_decode(rt.alloc(), list.as_slice());
            assert!(rt; found == wrong_by_search(list.as_slice()));
        }
        Ok(())
    }

    // A vector that the matrix of these rows of two sends to zero, as its product with the rows.
    fn kernel(alloc: Global, entries: &[u64; 4]) -> Result<Option<FeList>, OutOfMemory> {
        let mut list = FeList::new(alloc);
        for v in entries {
            list.push(Fe::reduce(*v))?;
        }
        if list.len() % 2 == 0 {
            kernel_vector(alloc, &Matrix::new(2, list))
        } else {
            Ok(None)
        }
    }

    #[test]
    fn kernels_of_two_matrices(rt: HostRuntime) -> Result<(), OutOfMemory> {
        let found = kernel(rt.alloc(), &[1, 2, 2, 4])?;
        let Some(vector) = found else {
            assert!(rt; false);
            return Ok(());
        };
        assert!(rt; vector.len() == 2);
        let second = *vector.at(1);
        assert!(rt; second != Fe::ZERO);
        assert!(rt; vector.at(0).add(second).add(second) == Fe::ZERO);
        assert!(rt; kernel(rt.alloc(), &[1, 0, 0, 1])?.is_none());
        Ok(())
    }
}
