//! Documents that cite: what is read, refused and written.

use crate::faults::fault_text;
use ct_files::{Cite, Document, read_document, write_document};
use std::alloc::{AllocError, Global};
use std::test::Fail;

// Six words with their pairwise distances at least 6.
const SIX_WORDS: &str = "\
kind = 'words'
n = 10
d = 6
words = ['1111111111', '1111000000', '1000111000', '0100100110', '0010010101', '0001001011']
";

// The fault of the whole, and what stands after the six words. Between the rows stands a line with three bars.
const REFUSED: &str = "\
Unknown
cites = ['MacWilliams and Sloane, Appendix A']
---
Unknown
format = 1
cites = []
---
Field(format)
format = 3
cites = ['MacWilliams and Sloane, Appendix A']
---
Field(format)
format = 0
---
Field(format)
format = '1'
---
Field(cites)
format = 2
cites = ['']
---
Field(cites)
format = 2
cites = ['a', 2]
---
Field(cites)
format = 2
cites = 'a'
---
Field(cites)
format = 2
cites = [\"\\u007F\"]
---
Field(cites)
format = 2
cites = [\"a\\n\"]
---
Unknown
format = 2
cites = ['a']
source = 'a'";

// What is written before the kind, in the order of the keys, an arrow, and what stands after the six words. Between the rows stands a
// line with three bars.
const WRITTEN: &str = "\
d = 6
<-

---
d = 6
<-
format = 1
---
d = 6
<-
format = 2
cites = []
---
cites = [\"MacWilliams and Sloane, Appendix A\"]
d = 6
format = 2
<-
format = 2
cites = ['MacWilliams and Sloane, Appendix A']
---
cites = [\"b\", \"a\", \"b\"]
d = 6
format = 2
<-
cites = ['b', 'a', 'b']
format = 2
---
cites = ['A \"B\" \\ C']
d = 6
format = 2
<-
format = 2
cites = [\"\\u0041 \\\"B\\\" \\\\ C\"]";

// What is written for the six words from their kind on.
const WRITTEN_WORDS: &str = "\
kind = \"words\"
n = 10
words = [\"1111111111\", \"1111000000\", \"1000111000\", \"0100100110\", \"0010010101\", \"0001001011\"]
";

// One text after the other.
fn joined(alloc: Global, first: &str, second: &str) -> Result<Vec<u8>, AllocError> {
    let mut text = first.as_bytes().to_vec(alloc)?;
    text.extend_from_slice(second.as_bytes())?;
    Ok(text)
}

// Whether the six words with the row's text are refused for its fault.
fn is_refused(alloc: Global, row: &str) -> Result<bool, AllocError> {
    let Some((fault, more)) = row.split_once('\n') else {
        return Ok(false);
    };
    let text = joined(alloc, SIX_WORDS, more)?;
    Ok(fault_text(alloc, &text)?.as_str() == fault)
}

/// Each document is refused with its fault.
#[test]
fn refused(rt: HostRuntime) -> Result<(), Fail> {
    for row in REFUSED.split("\n---\n") {
        assert!(rt; is_refused(rt.alloc(), row)?, "{row}");
    }
    Ok(())
}

// What is written for the document of these bytes, if it is read.
fn written(alloc: Global, bytes: &[u8]) -> Result<Option<Vec<u8>>, AllocError> {
    match read_document(alloc, bytes) {
        Ok(document) => Ok(Some(write_document(alloc, &document)?)),
        Err(_) => Ok(None),
    }
}

// Whether this is written for the document.
fn writes(alloc: Global, document: &[u8], wanted: &[u8]) -> Result<bool, AllocError> {
    match written(alloc, document)? {
        Some(text) => Ok(text.as_slice() == wanted),
        None => Ok(false),
    }
}

// Whether this is written for the document, and for itself.
fn is_written_for(alloc: Global, document: &[u8], wanted: &[u8]) -> Result<bool, AllocError> {
    Ok(writes(alloc, document, wanted)? && writes(alloc, wanted, wanted)?)
}

// Whether the row's text is written for the six words with what stands after them.
fn is_written(alloc: Global, row: &str) -> Result<bool, AllocError> {
    let Some((before, more)) = row.split_once("<-\n") else {
        return Ok(false);
    };
    let document = joined(alloc, SIX_WORDS, more)?;
    let wanted = joined(alloc, before, WRITTEN_WORDS)?;
    is_written_for(alloc, &document, &wanted)
}

/// What is written has format 2 exactly where something is cited, and is read and written again.
#[test]
fn written_in_their_format(rt: HostRuntime) -> Result<(), Fail> {
    for row in WRITTEN.split("\n---\n") {
        assert!(rt; is_written(rt.alloc(), row)?, "{row}");
    }
    Ok(())
}

// A dual with an odd number of words that cites, and what is written for it.
const ODD: &str =
    "kind = 'odd'\nformat = 2\nn = 9\nd = 4\neven = true\nm = 21\nc = [3, 1, 1]\ny = [[8, 16]]\ncites = ['a']";

const WRITTEN_ODD: &str =
    "c = [3, 1, 1]\ncites = [\"a\"]\nd = 4\neven = true\nformat = 2\nkind = \"odd\"\nm = 21\nn = 9\ny = [[8, 16]]\n";

#[test]
fn cites_of_an_odd_dual(rt: HostRuntime) -> Result<(), Fail> {
    let (document, wanted) = (ODD.as_bytes(), WRITTEN_ODD.as_bytes());
    assert!(rt; is_written_for(rt.alloc(), document, wanted)?);
    Ok(())
}

// A cite of so many letters and the comma after it.
fn put_cite(text: &mut Vec<u8>, length: usize) -> Result<(), AllocError> {
    text.push(b'\'')?;
    for _ in 0..length {
        text.push(b'x')?;
    }
    text.extend_from_slice(b"',")
}

// A document of format 2 that cites so many texts of so many letters.
fn with_cites(alloc: Global, count: usize, length: usize) -> Result<Vec<u8>, AllocError> {
    let mut text = joined(alloc, SIX_WORDS, "format = 2\ncites = [")?;
    for _ in 0..count {
        put_cite(&mut text, length)?;
    }
    text.push(b']')?;
    Ok(text)
}

// Whether there are so many cites, of which the last has so many letters.
fn has_cites(document: &Document, count: usize, length: usize) -> bool {
    match document.cites.last() {
        Some(cite) => document.cites.len() == count && cite.text().len() == length,
        None => false,
    }
}

// Whether so many cites of so many letters are read.
fn are_read(alloc: Global, count: usize, length: usize) -> Result<bool, AllocError> {
    let text = with_cites(alloc, count, length)?;
    match read_document(alloc, &text) {
        Ok(document) => Ok(has_cites(&document, count, length)),
        Err(_) => Ok(false),
    }
}

// Whether they are read back from what is written.
fn are_read_back(alloc: Global, count: usize, length: usize) -> Result<bool, AllocError> {
    let text = with_cites(alloc, count, length)?;
    match written(alloc, &text)? {
        Some(again) => writes(alloc, &again, &again),
        None => Ok(false),
    }
}

// The fault of a document with so many cites of so many letters.
fn fault_of(alloc: Global, count: usize, length: usize) -> Result<String, AllocError> {
    let text = with_cites(alloc, count, length)?;
    fault_text(alloc, &text)
}

/// At most 16 texts of at most 200 bytes are read.
#[test]
fn the_most_cites(rt: HostRuntime) -> Result<(), Fail> {
    assert!(rt; are_read(rt.alloc(), 16, 200)? && are_read_back(rt.alloc(), 16, 200)?);
    for (count, length) in [(17, 1), (1, 201)] {
        let fault = fault_of(rt.alloc(), count, length)?;
        assert!(rt; fault.as_str() == "Field(cites)", "{count} {length}");
    }
    Ok(())
}

// Whether the cite of these bytes has them as its text, where they are a cite.
fn parsed(alloc: Global, bytes: &[u8]) -> Result<Option<bool>, AllocError> {
    match Cite::parse(alloc, bytes)? {
        Some(cite) => Ok(Some(cite.text() == bytes)),
        None => Ok(None),
    }
}

// The same of so many letters.
fn parsed_letters(alloc: Global, length: usize) -> Result<Option<bool>, AllocError> {
    let bytes = vec![in alloc; b'x'; length]?;
    parsed(alloc, &bytes)
}

/// A cite is 1 to 200 bytes from 32 to 126.
#[test]
fn cites(rt: HostRuntime) -> Result<(), Fail> {
    let alloc = rt.alloc();
    assert!(rt; parsed(alloc, b" ~")? == Some(true));
    assert!(rt; parsed(alloc, &[31])?.is_none() && parsed(alloc, &[127])?.is_none());
    assert!(rt; parsed(alloc, &[65, 200])?.is_none());
    assert!(rt; parsed_letters(alloc, 0)?.is_none() && parsed_letters(alloc, 201)?.is_none());
    assert!(rt; parsed_letters(alloc, 200)? == Some(true));
    Ok(())
}
