//! The parity check of a Reed-Solomon code at the points 1 to n, for contracts and proofs. The functions are laws: their
//! bodies are empty, and their contracts are the theorems.
#![tactic(auto)]

ghost use Rattle.checks61.specs.Laws.{OneError, ZeroOnlyOfValues, ZeroOfValues, ErrorOfValues, ValuesOfError, WeighsAtZero, WordHasSyndrome};

/// With fewer than a third of the entries wrong, a syndrome has at most one error vector.
pub fn one_error()
    ensures { OneError }
{}

/// The syndrome is zero exactly where the entries are the values of a polynomial of degree at most the bound.
pub fn zero_syndrome()
    ensures only { ZeroOnlyOfValues }
    ensures always { ZeroOfValues }
{}

/// Where a polynomial of degree at most the bound differs from some values at no more points than the bound, the difference is the error
/// vector of the values' syndrome.
pub fn error_of_values()
    ensures { ErrorOfValues }
{}

/// Each error vector of some values' syndrome is such a difference.
pub fn values_of_error()
    ensures { ValuesOfError }
{}

/// The weights at 0 give the value at 0.
#[tactic(auto, using(crate::proofs::Weights::weighs_at_zero))]
pub fn weighs_at_zero()
    ensures { WeighsAtZero }
{}

/// Every list of at most n values is the syndrome of some word of n entries.
pub fn a_word_has_each_syndrome()
    ensures { WordHasSyndrome }
{}
