//! What is known of a code without its words.

ghost use Rattle.std.specs.Prelude.{◌≡◌, ◌≤◌};
ghost use Rattle.ct_words.specs.Code.{IsSoundCode};
ghost use Rattle.ct_words.specs.Entry.{IsEntry};
ghost use Rattle.ct_build.specs.Build.{shape_of, IsShape};

use ct_words::{Code, Entry};

/// What is known of a code without its words: their length, distance, weight where they have one, and number.
#[derive(Clone, Copy)]
pub struct Shape {
    /// The length of the words.
    pub n: u32,
    /// The distance that each two words have at least.
    pub d: u32,
    /// The weight of each word, where it is given.
    pub w: Option<u32>,
    /// The number of words.
    pub size: u64,
}

impl Shape {
    /// The shape of a code of the entry that has so many words.
    pub fn new(entry: Entry, size: u64) -> Shape
        requires { IsEntry entry }
        ensures value { result ≡ record { n = entry.n; d = entry.d; w = entry.w; size = size } }
        ensures limits { IsShape result }
    {
        Shape {
            n: entry.n,
            d: entry.d,
            w: entry.w,
            size,
        }
    }

    /// The shape of the code.
    pub fn of(code: &Code) -> Shape
        ensures value { result ≡ shape_of code.now }
        ensures limits { IsShape result }
        ensures sound { IsSoundCode code.now }
    {
        Shape {
            n: code.n(),
            d: code.d(),
            w: code.w(),
            size: code.words().len() as u64,
        }
    }
}
