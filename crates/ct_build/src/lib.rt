//! Codes that are made from other codes: lengthened, punctured, shortened, put together, and so on.
#![tactic(auto)]

mod append;
mod build_faults;
mod building;
mod built_words;
mod even;
mod fault;
mod front;
mod juxtaposed;
mod parts_and_sums;
mod places;
mod punctured;
mod right_parts;
mod shape;
mod shortened;
mod sorted;
mod step;
mod translation;

pub use append::{append_one, lengthen, parity};
pub use build_faults::{early_fault, result_size, told_size};
pub use building::{MAX_BUILT, apply};
pub use even::even_words;
pub use fault::BuildFault;
pub use front::trim;
pub use juxtaposed::juxtapose;
pub use parts_and_sums::uuv;
pub use punctured::puncture;
pub use shape::Shape;
pub use shortened::shorten;
pub use step::Step;
pub use translation::{complement, select_weight, translate};
