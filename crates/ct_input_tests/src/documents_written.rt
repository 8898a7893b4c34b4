//! What is written for evidence.

use ct_files::{read_evidence, write_evidence};
use std::alloc::{AllocError, Global};
use std::test::Fail;

// A document whose keys stand in another order than they are written in, a line with an arrow, and what is written for it. Between the
// rows stands a line with three bars.
const WRITTEN: &str = "\
kind = 'words'
n = 10
d = 6
words = ['0000000000', '1111100000']

->
d = 6
kind = \"words\"
n = 10
words = [\"0000000000\", \"1111100000\"]

---
kind = 'words'
n = 4
d = 4
words = ['0011', '1100']
w = 2

->
d = 4
kind = \"words\"
n = 4
w = 2
words = [\"0011\", \"1100\"]

---
n=6
kind='cosets'
basis=['100011','010101','001110']
representatives=['000000']
d=3
->
basis = [\"100011\", \"010101\", \"001110\"]
d = 3
kind = \"cosets\"
n = 6
representatives = [\"000000\"]

---
kind = 'build'
part = 'a'
op = 'lengthen'
d = 3
n = 2
->
d = 3
kind = \"build\"
n = 2
op = \"lengthen\"
part = \"a\"

---
op = 'append_one'
part = 'z9-_'
kind = 'build'
w = 30
n = 30
d = 30
->
d = 30
kind = \"build\"
n = 30
op = \"append_one\"
part = \"z9-_\"
w = 30

---
op = 'parity'
part = 'a'
kind = 'build'
n = 24
d = 8
->
d = 8
kind = \"build\"
n = 24
op = \"parity\"
part = \"a\"

---
op = 'puncture'
places = [0, 2, 29]
part = 'a'
kind = 'build'
n = 27
d = 5
->
d = 5
kind = \"build\"
n = 27
op = \"puncture\"
part = \"a\"
places = [0, 2, 29]

---
op = 'shorten'
digits = '10'
places = [0x1, 3]
part = 'a'
kind = 'build'
n = 2
d = 4
w = 0
->
d = 4
digits = \"10\"
kind = \"build\"
n = 2
op = \"shorten\"
part = \"a\"
places = [1, 3]
w = 0

---
op = 'shorten'
digits = '0'
places = [5]
part = 'a'
kind = 'build'
n = 5
d = 3
->
d = 3
digits = \"0\"
kind = \"build\"
n = 5
op = \"shorten\"
part = \"a\"
places = [5]

---
op = 'translate'
by = '0110'
part = 'a'
kind = 'build'
n = 4
d = 3
->
by = \"0110\"
d = 3
kind = \"build\"
n = 4
op = \"translate\"
part = \"a\"

---
op = 'complement'
part = 'a'
kind = 'build'
n = 4
d = 3
->
d = 3
kind = \"build\"
n = 4
op = \"complement\"
part = \"a\"

---
op = 'complement'
part = 'a'
kind = 'build'
n = 4
d = 4
w = 4
->
d = 4
kind = \"build\"
n = 4
op = \"complement\"
part = \"a\"
w = 4

---
op = 'select'
w = 8
by = '000000000000000000000001'
part = 'a'
kind = 'build'
n = 24
d = 8
->
by = \"000000000000000000000001\"
d = 8
kind = \"build\"
n = 24
op = \"select\"
part = \"a\"
w = 8

---
op = 'uuv'
other = 'b'
part = 'a'
kind = 'build'
n = 16
d = 8
->
d = 8
kind = \"build\"
n = 16
op = \"uuv\"
other = \"b\"
part = \"a\"

---
op = 'juxtapose'
other = 'a'
part = 'a'
kind = 'build'
n = 2
d = 6
->
d = 6
kind = \"build\"
n = 2
op = \"juxtapose\"
other = \"a\"
part = \"a\"

---
op = 'juxtapose'
other = 'b'
part = 'a'
kind = 'build'
n = 8
d = 6
w = 3
->
d = 6
kind = \"build\"
n = 8
op = \"juxtapose\"
other = \"b\"
part = \"a\"
w = 3

---
d1 = 2
classes = [['0011', '1100'], ['0101']]
kind = 'partition'
w = 2
n = 4
d = 4
->
classes = [[\"0011\", \"1100\"], [\"0101\"]]
d = 4
d1 = 2
kind = \"partition\"
n = 4
w = 2

---
kind = 'partition'
n = 1
d = 3
d1 = 3
classes = [['1']]
->
classes = [[\"1\"]]
d = 3
d1 = 3
kind = \"partition\"
n = 1

---
pairs = [['a', 'b']]
kind = 'product'
n = 8
d = 3
->
d = 3
kind = \"product\"
n = 8
pairs = [[\"a\", \"b\"]]

---
w = 4
kind = 'product'
pairs = [['a', 'b'], ['a', 'b']]
n = 8
d = 4
->
d = 4
kind = \"product\"
n = 8
pairs = [[\"a\", \"b\"], [\"a\", \"b\"]]
w = 4

---
op = 'trim'
size = 1
part = 'a'
kind = 'build'
n = 1
d = 4
w = 1
->
d = 4
kind = \"build\"
n = 1
op = \"trim\"
part = \"a\"
size = 1
w = 1

---
kind = 'odd'
n = 9
d = 4
even = true
m = 21
c = [3, 1, 1]
y = [[8, 16]]
->
c = [3, 1, 1]
d = 4
even = true
kind = \"odd\"
m = 21
n = 9
y = [[8, 16]]

---
kind = 'odd'
m = 0xF_FFFF
c = [0]
d = 3
n = 1
->
c = [0]
d = 3
even = false
kind = \"odd\"
m = 1048575
n = 1
y = []

---
kind = 'jlocal'
n = 8
d = 4
w = 4
c = [8, 1]
y = [[2, 8], [4, 0]]
->
c = [8, 1]
d = 4
kind = \"jlocal\"
n = 8
w = 4
y = [[2, 8], [4, 0]]

---
kind = 'jlocal'
c = [0]
w = 0
d = 30
n = 1
->
c = [0]
d = 30
kind = \"jlocal\"
n = 1
w = 0
y = []
";

// What is written for the evidence of the document, if it is read.
fn written(alloc: Global, document: &str) -> Result<Option<Vec<u8>>, AllocError> {
    match read_evidence(alloc, document.as_bytes()) {
        Ok(evidence) => Ok(Some(write_evidence(alloc, &evidence)?)),
        Err(_) => Ok(None),
    }
}

// Whether this is written for the evidence of the document.
fn writes(alloc: Global, document: &str, wanted: &str) -> Result<bool, AllocError> {
    match written(alloc, document)? {
        Some(text) => Ok(text.as_slice() == wanted.as_bytes()),
        None => Ok(false),
    }
}

// Whether the row's text is written for its document, and for itself.
fn is_written(alloc: Global, row: &str) -> Result<bool, AllocError> {
    match row.split_once("\n->\n") {
        Some((document, wanted)) => {
            Ok(writes(alloc, document, wanted)? && writes(alloc, wanted, wanted)?)
        }
        None => Ok(false),
    }
}

/// The keys are written in their order; what is written is read and written again.
#[test]
fn documents_in_their_order(rt: HostRuntime) -> Result<(), Fail> {
    for row in WRITTEN.split("\n---\n") {
        assert!(rt; is_written(rt.alloc(), row)?, "{row}");
    }
    Ok(())
}
