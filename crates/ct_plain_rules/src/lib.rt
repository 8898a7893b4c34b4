//! The rules for codes without weight, each in a file of its theorem.
#![tactic(auto)]

mod all_words;
mod far_words;
mod given_code;
mod juxtaposition;
mod lengthened;
mod nearer_words;
mod neighbours;
mod one_word;
mod opposite_words;
mod plotkin;
mod punctured;
mod shortened;
mod sphere_packing;
mod uuv;
mod with_parity;

pub use all_words::known_all_words;
pub use far_words::known_far_words;
pub use given_code::known_given_code;
pub use juxtaposition::{known_juxtaposition, parts_of_juxtaposition};
pub use lengthened::known_lengthened;
pub use nearer_words::known_nearer;
pub use neighbours::{
    farther, half_as_long, longer, longer_and_farther, nearer, shorter, shorter_and_nearer,
    twice_as_long,
};
pub use one_word::known_one_word;
pub use opposite_words::known_opposite_words;
pub use plotkin::known_plotkin;
pub use punctured::known_punctured;
pub use shortened::known_shortened;
pub use sphere_packing::known_sphere_packing;
pub use uuv::{count_of_uuv, known_uuv, parts_of_uuv, uuv_of};
pub use with_parity::known_with_parity;
