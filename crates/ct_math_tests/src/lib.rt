//! Tests of words, codes, bounds, schemes, duals, builds, partitions and sum classes, whose answers are known; and the bases of codes that are known.
#![tactic(auto)]

#[cfg(test)]
mod build_parts;
#[cfg(test)]
mod build_steps;
#[cfg(test)]
mod builds;
#[cfg(test)]
mod constructions;
#[cfg(test)]
mod cosets;
#[cfg(test)]
mod dual_answers;
#[cfg(test)]
mod elementary;
#[cfg(test)]
mod johnson;
mod known_codes;
#[cfg(test)]
mod known_duals;
#[cfg(test)]
mod krawtchouk;
#[cfg(test)]
mod large_builds;
#[cfg(test)]
mod lists;
#[cfg(test)]
mod numbers;
#[cfg(test)]
mod pairs;
#[cfg(test)]
mod products;
#[cfg(test)]
mod scheme;
#[cfg(test)]
mod shapes;
#[cfg(test)]
mod sum_classes;
#[cfg(test)]
mod words;

pub use known_codes::{GOLAY, NORDSTROM_ROBINSON, REED_MULLER};
