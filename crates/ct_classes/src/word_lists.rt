//! Lists of words in a row.
ghost use Rattle.std.specs.Prelude.{◌≡◌};
ghost use Rattle.ct_classes.specs.Partition.{word_lists};

use ct_words::Word;
use std::marker::Model;

/// Lists of words in the order in which they were handed in, repeats and empty ones included. Contracts see the list of the
/// lists.
pub struct WordLists {
    lists: Vec<Vec<Word>>,
}

impl Drop for WordLists {
    fn drop(self) {
        let WordLists { lists: _ } = self;
    }
}

impl Model for WordLists {
    ghost use Rattle.std.specs.Prelude.{List, ℕ};

    ghost Value = { List (List ℕ) };

    ghost use Rattle.ct_classes.specs.Partition.{word_lists};

    ghost view = { λ l. word_lists l.lists.items };
}

impl WordLists {
    /// The lists of the vector.
    pub fn from_vec(lists: Vec<Vec<Word>>) -> WordLists
        ensures { result ≡ word_lists lists.items }
    {
        WordLists { lists }
    }

    /// The lists as a vector.
    pub fn into_vec(self) -> Vec<Vec<Word>>
        ensures { word_lists result.items ≡ self }
    {
        let WordLists { lists } = self;
        lists
    }

    /// The lists as a slice.
    pub fn as_slice(&self) -> &[Vec<Word>]
        ensures { word_lists result.now ≡ self.now }
    {
        &self.lists
    }
}
