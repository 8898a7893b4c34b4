//! Codes.

ghost use Rattle.std.specs.Prelude.{◌≡◌, IfOk};
ghost use Rattle.ct_words.specs.Code.{CodeValue, IsSoundCode};

use crate::word::Word;
use std::alloc::AllocError;
use std::marker::Model;

/// The greatest distance of a code, 60. Distances of the table end at `MAX_N`; above it is room for codes that are put
/// together from others.
pub const MAX_CODE_DISTANCE: u32 = 60;

/// A code of length n, from 1 to `MAX_N`, of distance d, from 1 to `MAX_CODE_DISTANCE`, and, where it is given, of weight
/// w: at least one word, in ascending order.
pub struct Code {
    n: u32,
    d: u32,
    w: Option<u32>,
    words: Vec<Word>,
}

impl Drop for Code {
    fn drop(self) {
        let Code {
            n: _,
            d: _,
            w: _,
            words: _,
        } = self;
    }
}

impl Model for Code {
    ghost Value = { CodeValue };

    ghost view = { λ c. record { n = c.n; d = c.d; w = c.w; words = c.words.items } };

    ghost invariant = { λ c. IsSoundCode (record { n = c.n; d = c.d; w = c.w; words = c.words.items }) };
}

impl Code {
    /// The code of words that are one: words of length n in strictly ascending order, each two at distance at least d, and
    /// of weight w where it is given. Nothing is tested, and no memory taken; so a code is also read at a smaller
    /// distance, or without its weight.
    pub fn from_sorted(n: u32, d: u32, w: Option<u32>, words: Vec<Word>) -> Code
        requires code { IsSoundCode (record { n = n; d = d; w = w; words = words.items }) }
        ensures value { result ≡ record { n = n; d = d; w = w; words = words.items } }
    {
        Code { n, d, w, words }
    }

    /// The length of the words.
    pub fn n(&self) -> u32
        ensures value { result ≡ self.now.n }
        ensures sound { IsSoundCode self.now }
    {
        self.n
    }

    /// The distance that each two words have at least.
    pub fn d(&self) -> u32
        ensures value { result ≡ self.now.d }
        ensures sound { IsSoundCode self.now }
    {
        self.d
    }

    /// The weight that each word has, where it is given.
    pub fn w(&self) -> Option<u32>
        ensures value { result ≡ self.now.w }
        ensures sound { IsSoundCode self.now }
    {
        self.w
    }

    /// The words, in ascending order.
    pub fn words(&self) -> &[Word]
        ensures value { result.now ≡ self.now.words }
        ensures sound { IsSoundCode self.now }
    {
        &self.words
    }

    /// The words of the code, in ascending order, as a vector of their own. It takes no memory.
    pub fn into_words(self) -> Vec<Word>
        ensures value { result.items ≡ self.words }
        ensures sound { IsSoundCode self }
    {
        let Code {
            n: _,
            d: _,
            w: _,
            words,
        } = self;
        words
    }

    /// A copy: the same length, distance, weight and words.
    pub fn try_copy(&self) -> Result<Code, AllocError>
        ensures { IfOk result (λ c. c ≡ self.now) }
    {
        let words = self.words.clone()?;
        Ok(Code {
            n: self.n,
            d: self.d,
            w: self.w,
            words,
        })
    }
}
