//! Documents that are read, and the evidence that each gives.

use ct_build::Step;
use ct_files::{Evidence, FieldName, MAX_DOCUMENT, read_evidence};
use ct_names::Id;
use ct_words::Entry;
use std::alloc::{AllocError, Global};
use std::test::Fail;

// Documents of words, the text that is written for cosets, and all the fields of a build. Before each stands a line with what it states,
// between them a line with three bars. A byte order mark at the start is passed over, as TOML has it.
const READ: &str = "\
words 6 4 None [60]
kind = 'words'
n = 6
d = 4
words = ['111100']

---
words 30 30 None [0]
kind = 'words'
n = 30
d = 30
words = ['000000000000000000000000000000']

---
words 1 3 None [1, 0, 1]
kind = 'words'
n = 1
d = 3
words = ['1', '0', '1']

---
words 30 3 None [536870913]
kind = 'words'
n = 30
d = 3
words = ['100000000000000000000000000001']

---
words 3 3 None [3, 4]
kind = 'words'
n = 0x3
d = +3
words = [\r
'011', # three\r
'100',\r
]\r

---
words 2 3 None [1, 2]
kind = 'words'
n = 0b10
d = 3
words = ['''01''', \"\\u00310\"]

---
words 2 28 None [1, 3]
kind = 'words'
n = 0o2
d = 2_8
words = [\"\\x30\\x31\", \"\"\"\\
 11\"\"\"]

---
words 1 3 None [1]
\u{feff}kind = 'words'
n = 1
d = 3
words = ['1']
---
words 10 6 None [0, 992]
d = 6
kind = \"words\"
n = 10
words = [\"0000000000\", \"1111100000\"]

---
words 4 4 Some(2) [3, 12]
d = 4
kind = \"words\"
n = 4
w = 2
words = [\"0011\", \"1100\"]

---
cosets 6 3 None [35, 21, 14] [0]
basis = [\"100011\", \"010101\", \"001110\"]
d = 3
kind = \"cosets\"
n = 6
representatives = [\"000000\"]

---
shorten 4 6 Some(1) [1, 4] [1, 0] a
kind = 'build'
n = 4
part = 'a'
d = 6
w = 1
op = 'shorten'
places = [1, 4]
digits = '10'";

// The length, the distance and the weight.
fn entry_text(alloc: Global, entry: &Entry) -> Result<String, AllocError> {
    format!(in alloc; "{} {} {:?}", entry.n, entry.d, entry.w)
}

// That of a build by the step of a piece, where it shortens.
fn step_text(alloc: Global, step: &Step, part: &Id) -> Result<String, AllocError> {
    match step {
        Step::Shorten(places, digits) => {
            let part = str::from_utf8(part.text()).unwrap_or("no text");
            format!(in alloc; "{:?} {:?} {part}", places.as_slice(), digits.as_slice())
        }
        _ => "another step".to_string(alloc),
    }
}

// What the evidence states.
fn evidence_text(alloc: Global, evidence: &Evidence) -> Result<String, AllocError> {
    match evidence {
        Evidence::Words { entry, words } => {
            let entry = entry_text(alloc, entry)?;
            format!(in alloc; "words {entry} {:?}", words.as_slice())
        }
        Evidence::Cosets {
            entry,
            basis,
            representatives,
        } => {
            let entry = entry_text(alloc, entry)?;
            format!(in alloc;
                "cosets {entry} {:?} {:?}",
                basis.as_slice(),
                representatives.as_slice()
            )
        }
        Evidence::Build {
            entry,
            step,
            part,
            other: None,
        } => {
            let entry = entry_text(alloc, entry)?;
            let step = step_text(alloc, step, part)?;
            format!(in alloc; "shorten {entry} {step}")
        }
        _ => "another kind".to_string(alloc),
    }
}

// What the document states, if it is read.
fn stated(alloc: Global, document: &str) -> Result<Option<String>, AllocError> {
    match read_evidence(alloc, document.as_bytes()) {
        Ok(evidence) => Ok(Some(evidence_text(alloc, &evidence)?)),
        Err(_) => Ok(None),
    }
}

// Whether the document of the row states what stands before it.
fn is_read(alloc: Global, row: &str) -> Result<bool, AllocError> {
    let Some((wanted, document)) = row.split_once('\n') else {
        return Ok(false);
    };
    match stated(alloc, document)? {
        Some(text) => Ok(text.as_str() == wanted),
        None => Ok(false),
    }
}

#[test]
fn documents_that_are_read(rt: HostRuntime) -> Result<(), Fail> {
    for row in READ.split("\n---\n") {
        assert!(rt; is_read(rt.alloc(), row)?, "{row}");
    }
    Ok(())
}

/// Fields of documents.
const FIELDS: [FieldName; 17] = [
    FieldName::N,
    FieldName::D,
    FieldName::W,
    FieldName::Words,
    FieldName::Basis,
    FieldName::Representatives,
    FieldName::D1,
    FieldName::Classes,
    FieldName::Op,
    FieldName::Places,
    FieldName::Digits,
    FieldName::By,
    FieldName::Size,
    FieldName::Part,
    FieldName::Other,
    FieldName::Pairs,
    FieldName::M,
];

/// Their keys.
const KEYS: &str =
    "n d w words basis representatives d1 classes op places digits by size part other pairs m";

#[test]
fn keys_of_the_fields(rt: HostRuntime) {
    let mut keys = KEYS.split(' ');
    for name in &FIELDS {
        assert!(rt; keys.next() == Some(name.text()));
    }
    assert!(rt; keys.next().is_none());
    assert!(rt; MAX_DOCUMENT == 4194304);
}
