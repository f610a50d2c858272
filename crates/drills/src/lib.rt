//! Tests of what parties say and how a drill alters it. The crate has tests alone, so that they are proved without the
//! crates that they try.
#![tactic(auto)]

#[cfg(test)]
mod accused;
#[cfg(test)]
mod lines;
#[cfg(test)]
mod minds;
#[cfg(test)]
mod moves;
#[cfg(test)]
mod numbers;
#[cfg(test)]
mod refreshes;
#[cfg(test)]
mod runs;
#[cfg(test)]
mod shapes;
#[cfg(test)]
mod values;
