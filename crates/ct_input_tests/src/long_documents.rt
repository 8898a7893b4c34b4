//! Documents of the greatest size, and of the greatest numbers of words.

use crate::faults::name_of;
use ct_files::{DocumentFault, Evidence, read_evidence};
use ct_text::parse_number;
use std::alloc::{AllocError, Global};
use std::test::Fail;

// The first byte of a document, how many bytes it has, and its fault: of 100 kB, of the greatest size, and of one byte more.
const LENGTHS: [(u8, usize, Option<DocumentFault>); 4] = [
    (b'k', 102400, None),
    (b'k', 4194304, None),
    (b'=', 4194304, Some(DocumentFault::NotToml)),
    (b'=', 4194305, Some(DocumentFault::Bytes(4194305))),
];

// The fault of a document of words that begins with the byte, with a comment at its end.
fn fault_of(alloc: Global, first: u8, length: usize) -> Result<Option<DocumentFault>, AllocError> {
    let mut bytes = vec![in alloc; first; 1]?;
    bytes.extend_from_slice(b"ind = 'words'\nn = 6\nd = 4\nwords = ['111100']\n")?;
    bytes.resize(length, b'#')?;
    Ok(read_evidence(alloc, &bytes).err())
}

#[test]
fn long_documents(rt: HostRuntime) -> Result<(), Fail> {
    for (first, length, fault) in &LENGTHS {
        let found = fault_of(rt.alloc(), *first, *length)?;
        assert!(rt; found == *fault, "{length}");
    }
    Ok(())
}

// The greatest numbers and one more: the number of words, classes or pairs of a document, or its fault, and the document, in which
// `*N*ITEM*` stands for N copies of an item. Between the rows stands a line with three bars.
//
// Of words of length 1 the count comes after the digits. Of cosets the basis is counted first. Of a partition classes are counted first, then
// those without words, then words, and all after the digits. Products are with and without a weight.
const COUNTED: &str = "\
Ok(16384)
kind = 'words'
n = 1
d = 3
words = [*16383*'1',*'0']
---
Err(Size(16385))
kind = 'words'
n = 1
d = 3
words = [*16384*'1',*'0']
---
Err(Digits(16384))
kind = 'words'
n = 1
d = 3
words = [*16384*'1',*'2']
---
Ok(1)
kind = 'cosets'
n = 1
d = 3
basis = []
representatives = [*1*'0',*]
---
Ok(4126)
kind = 'cosets'
n = 1
d = 3
basis = [*30*'1',*]
representatives = [*4096*'0',*]
---
Err(Size(31))
kind = 'cosets'
n = 1
d = 3
basis = [*31*'1',*]
representatives = [*1*'0',*]
---
Err(Size(31))
kind = 'cosets'
n = 1
d = 3
basis = [*31*'1',*]
representatives = []
---
Err(Size(0))
kind = 'cosets'
n = 1
d = 3
basis = [*30*'1',*]
representatives = []
---
Err(Size(4097))
kind = 'cosets'
n = 1
d = 3
basis = [*30*'1',*]
representatives = [*4097*'0',*]
---
Ok(4096)
kind = 'partition'
n = 1
d = 3
d1 = 1
classes = [*4095*['1'],*['0']]
---
Err(Size(4097))
kind = 'partition'
n = 1
d = 3
d1 = 1
classes = [*4096*['1'],*['0']]
---
Err(Size(4097))
kind = 'partition'
n = 1
d = 3
d1 = 1
classes = [*4096*[],*['0']]
---
Err(Size(0))
kind = 'partition'
n = 1
d = 3
d1 = 1
classes = [*4095*['1'],*[]]
---
Ok(4096)
kind = 'partition'
n = 1
d = 3
d1 = 1
classes = [*4095*['1', '1', '0', '1'],*['0', '0', '0', '0']]
---
Err(Size(16385))
kind = 'partition'
n = 1
d = 3
d1 = 1
classes = [*4095*['1', '1', '0', '1'],*['0', '0', '0', '0', '0']]
---
Err(Size(0))
kind = 'partition'
n = 1
d = 3
d1 = 1
classes = [*4095*['1', '1', '0', '1', '1'],*[]]
---
Err(Digits(4096))
kind = 'partition'
n = 1
d = 3
d1 = 1
classes = [*4096*['1'],*['2']]
---
Ok(1)
kind = 'product'
n = 8
d = 4
pairs = [*1*['a', 'b'],*]

---
Err(Field(pairs))
kind = 'product'
n = 8
d = 4
pairs = [*2*['a', 'b'],*]

---
Err(Field(pairs))
kind = 'product'
n = 8
d = 4
pairs = [*31*['a', 'b'],*]

---
Ok(1)
kind = 'product'
n = 8
d = 4
pairs = [*1*['a', 'b'],*]
w = 4
---
Ok(2)
kind = 'product'
n = 8
d = 4
pairs = [*2*['a', 'b'],*]
w = 4
---
Ok(31)
kind = 'product'
n = 8
d = 4
pairs = [*31*['a', 'b'],*]
w = 4
---
Err(Field(pairs))
kind = 'product'
n = 8
d = 4
pairs = [*32*['a', 'b'],*]
w = 4";

fn put_items(text: &mut String, count: u64, item: &str) -> Result<(), AllocError> {
    for _ in 0..count {
        text.push_str(item)?;
    }
    Ok(())
}

// The number of words, classes or pairs of the evidence.
fn size(evidence: &Evidence) -> usize {
    match evidence {
        Evidence::Words { words, .. } => words.as_slice().len(),
        Evidence::Cosets {
            basis,
            representatives,
            ..
        } => basis
            .as_slice()
            .len()
            .saturating_add(representatives.as_slice().len()),
        Evidence::Partition { classes, .. } => classes.as_slice().len(),
        Evidence::Product { pairs, .. } => pairs.as_slice().len(),
        _ => 0,
    }
}

// That of the evidence of the document.
fn number(alloc: Global, bytes: &[u8]) -> Result<usize, DocumentFault> {
    let evidence = read_evidence(alloc, bytes)?;
    Ok(size(&evidence))
}

// The text with all copies of its items.
fn unfolded(alloc: Global, text: &str) -> Result<String, AllocError> {
    let mut whole = String::new(alloc);
    let mut count = 0;
    for (place, part) in text.split('*').enumerate() {
        match place % 3 {
            0 => whole.push_str(part)?,
            1 => count = parse_number(part.as_bytes()).unwrap_or(0),
            _ => put_items(&mut whole, count, part)?,
        }
    }
    Ok(whole)
}

// Whether the document of the row has that number, or that fault.
fn is_counted(alloc: Global, row: &str) -> Result<bool, AllocError> {
    let Some((wanted, text)) = row.split_once('\n') else {
        return Ok(false);
    };
    let text = unfolded(alloc, text)?;
    let found = match number(alloc, text.as_bytes()) {
        Ok(count) => format!(in alloc; "Ok({count})")?,
        Err(fault) => format!(in alloc; "Err({})", name_of(alloc, fault)?.as_str())?,
    };
    Ok(found.as_str() == wanted)
}

#[test]
fn numbers(rt: HostRuntime) -> Result<(), Fail> {
    for row in COUNTED.split("\n---\n") {
        assert!(rt; is_counted(rt.alloc(), row)?, "{row}");
    }
    Ok(())
}
