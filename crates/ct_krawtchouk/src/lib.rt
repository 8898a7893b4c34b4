//! The Hamming scheme: all words of a length, their distances, and the Krawtchouk numbers.
#![tactic(auto)]

mod hamming;
mod krawtchouk;

pub use hamming::Hamming;
