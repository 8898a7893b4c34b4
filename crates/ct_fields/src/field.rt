//! The fields of evidence documents.
ghost use Rattle.std.specs.Prelude.{◌≡◌};
ghost use Rattle.ct_fields.specs.Field.{field_text};

/// A field of an evidence document.
#[derive(Clone, Copy, PartialEq, Eq)]
pub enum FieldName {
    /// The format of the document, `format`.
    Format,
    /// The length of the words, `n`.
    N,
    /// The distance, `d`.
    D,
    /// The weight of the words, `w`.
    W,
    /// The list of words, `words`.
    Words,
    /// The words of a basis, `basis`.
    Basis,
    /// The representatives of cosets, `representatives`.
    Representatives,
    /// The distance between the classes of a partition, `d1`.
    D1,
    /// The classes of a partition, `classes`.
    Classes,
    /// The operation of a build, `op`.
    Op,
    /// The places of a build, `places`.
    Places,
    /// The digits at the places of a build, `digits`.
    Digits,
    /// The word that a build adds, `by`.
    By,
    /// The number of words that a build takes, `size`.
    Size,
    /// The piece whose code a build is made from, `part`.
    Part,
    /// The other piece whose code a build is made from, `other`.
    Other,
    /// The pairs of partitions of a product, `pairs`.
    Pairs,
    /// Whether a dual speaks of even distances alone, `even`.
    Even,
    /// The odd number of words that a dual may exclude, `m`.
    M,
    /// The multipliers of a dual, `c`.
    C,
    /// What a dual allows, `y`.
    Y,
    /// Where the evidence comes from, `cites`.
    Cites,
}

impl FieldName {
    /// The key of the field in a document.
    pub fn text(&self) -> &'static str
        ensures { result.now ≡ field_text self.now }
    {
        match self {
            FieldName::Format => "format",
            FieldName::N => "n",
            FieldName::D => "d",
            FieldName::W => "w",
            FieldName::Words => "words",
            FieldName::Basis => "basis",
            FieldName::Representatives => "representatives",
            FieldName::D1 => "d1",
            FieldName::Classes => "classes",
            FieldName::Op => "op",
            FieldName::Places => "places",
            FieldName::Digits => "digits",
            FieldName::By => "by",
            FieldName::Size => "size",
            FieldName::Part => "part",
            FieldName::Other => "other",
            FieldName::Pairs => "pairs",
            FieldName::Even => "even",
            FieldName::M => "m",
            FieldName::C => "c",
            FieldName::Y => "y",
            FieldName::Cites => "cites",
        }
    }
}
