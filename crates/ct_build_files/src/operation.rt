//! The operations of documents of kind build.
ghost use Rattle.std.specs.Prelude.{◌≡◌};
ghost use Rattle.ct_build_files.specs.Operation.{operation_text, operation_named, operation_of, makes_length, takes_weight, takes_other};

use ct_build::Step;

/// The operation by which a code is built, for each kind of `Step` one.
#[derive(Clone, Copy)]
pub enum Operation {
    Lengthen,
    AppendOne,
    Parity,
    Puncture,
    Shorten,
    Translate,
    Complement,
    Select,
    Uuv,
    Juxtapose,
    Trim,
}

impl Operation {
    /// The operation of the step.
    pub fn of(step: &Step) -> Operation
        ensures { result ≡ operation_of step.now }
    {
        match step {
            Step::Lengthen => Operation::Lengthen,
            Step::AppendOne => Operation::AppendOne,
            Step::Parity => Operation::Parity,
            Step::Puncture(_) => Operation::Puncture,
            Step::Shorten(_, _) => Operation::Shorten,
            Step::Translate(_) => Operation::Translate,
            Step::Complement => Operation::Complement,
            Step::Select(_) => Operation::Select,
            Step::Uuv => Operation::Uuv,
            Step::Juxtapose => Operation::Juxtapose,
            Step::Trim(_) => Operation::Trim,
        }
    }

    /// The operation that has the text.
    #[tactic(auto, unfolding(crate::specs::Operation::operation_named))]
    pub fn named(text: &str) -> Option<Operation>
        ensures { result ≡ operation_named text.now }
    {
        match text {
            "lengthen" => Some(Operation::Lengthen),
            "append_one" => Some(Operation::AppendOne),
            "parity" => Some(Operation::Parity),
            "puncture" => Some(Operation::Puncture),
            "shorten" => Some(Operation::Shorten),
            "translate" => Some(Operation::Translate),
            "complement" => Some(Operation::Complement),
            "select" => Some(Operation::Select),
            "uuv" => Some(Operation::Uuv),
            "juxtapose" => Some(Operation::Juxtapose),
            "trim" => Some(Operation::Trim),
            _ => None,
        }
    }

    /// The text of the operation in a document.
    pub fn text(&self) -> &'static str
        ensures { result.now ≡ operation_text self.now }
    {
        match self {
            Operation::Lengthen => "lengthen",
            Operation::AppendOne => "append_one",
            Operation::Parity => "parity",
            Operation::Puncture => "puncture",
            Operation::Shorten => "shorten",
            Operation::Translate => "translate",
            Operation::Complement => "complement",
            Operation::Select => "select",
            Operation::Uuv => "uuv",
            Operation::Juxtapose => "juxtapose",
            Operation::Trim => "trim",
        }
    }

    /// Whether the operation makes words of length `n`.
    pub fn makes_length(&self, n: u32) -> bool
        ensures { result ≡ makes_length self.now n }
    {
        match self {
            Operation::Lengthen | Operation::AppendOne | Operation::Parity | Operation::Juxtapose =>
                n >= 2,
            Operation::Uuv => n % 2 == 0,
            _ => true,
        }
    }

    /// Whether the operation takes a stated weight, or none.
    pub fn takes_weight(&self, w: Option<u32>) -> bool
        ensures { result ≡ takes_weight self.now w }
    {
        match self {
            Operation::Puncture | Operation::Translate | Operation::Uuv => w.is_none(),
            Operation::Select => w.is_some(),
            _ => true,
        }
    }

    /// Whether the operation takes another code beside the part.
    pub fn takes_other(&self) -> bool
        ensures { result ≡ takes_other self.now }
    {
        match self {
            Operation::Uuv | Operation::Juxtapose => true,
            _ => false,
        }
    }
}
