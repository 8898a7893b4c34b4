//! Documents that are refused, and the fault of each.

use crate::faults::fault_text;
use ct_files::{DocumentFault, read_evidence};
use std::alloc::{AllocError, Global};
use std::test::Fail;

// Documents of words, those that are of no kind or lack a field, builds of words of length 4, duals with a number of words, and such that
// look at a code from a word. Before each stands a line with its fault, between them a line with three bars.
const REFUSED: &str = "\
NotToml
kind = 'words'
n = 9223372036854775808
d = 4
words = []

---
NotToml
kind = 'words'
n = 6
d = -9223372036854775809
words = []

---
NotToml
kind = 'words'
n = 06
d = 4
words = []

---
NotToml
kind = 'words'
n = 6
d = 4
words = 

---
NotToml
kind = 'words'
n = 6
d = 4
words = ['111100'

---
NotToml
kind = 'words'
n = 6
d = 4
words = ['
']

---
NotToml
kind = 'words'
n = 6
d = 4
words = []
n = 6

---
NotToml
kind = 'words'
n = 6
d = 4
words = []
words = []

---
NotToml
kind = 'words'
n = 6
d = 4
words = []
\"d\" = 4

---
NotToml
kind = 'words'
n = 6
d = 4
words = []
n.n = 4

---
Field(n)
kind = 'words'
n = 0
d = 4
words = ['1']

---
Field(n)
kind = 'words'
n = 31
d = 4
words = []

---
Field(n)
kind = 'words'
n = -7
d = 4
words = []

---
Field(n)
kind = 'words'
n = 4294967302
d = 4
words = []

---
Field(n)
kind = 'words'
n = 9223372036854775807
d = 4
words = []

---
Field(n)
kind = 'words'
n = -9223372036854775808
d = 4
words = []

---
Field(n)
kind = 'words'
n = 6.0
d = 4
words = []

---
Field(n)
kind = 'words'
n = '6'
d = 4
words = []

---
Field(n)
kind = 'words'
n = true
d = 4
words = []

---
Field(n)
kind = 'words'
n = [6]
d = 4
words = []

---
Field(n)
kind = 'words'
n = { n = 6 }
d = 4
words = []

---
Field(n)
kind = 'words'
n = 2026-11-27
d = 4
words = []

---
Field(n)
kind = 'words'
n = 0
d = 2
words = []

---
Field(d)
kind = 'words'
n = 6
d = 2
words = []

---
Field(d)
kind = 'words'
n = 6
d = 31
words = []

---
Field(d)
kind = 'words'
n = 6
d = nan
words = []

---
Field(d)
kind = 'words'
n = 6
d = 0
words = 6

---
Field(words)
kind = 'words'
n = 6
d = 4
words = '111100'

---
Field(words)
kind = 'words'
n = 6
d = 4
words = ['111100', 111100]

---
Field(words)
kind = 'words'
n = 6
d = 4
words = [['111100']]

---
Field(words)
kind = 'words'
n = 6
d = 4
words = { }

---
Field(words)
kind = 'words'
n = 6
d = 4
words = 6
w = 3

---
Field(d)
kind = 'words'
n = 6
d = 3
words = ['111000']
w = 3

---
Field(d)
kind = 'words'
n = 6
d = 3
words = ['111000']
w = []

---
Field(w)
kind = 'words'
n = 6
d = 4
words = 6
w = 7

---
Field(w)
kind = 'words'
n = 6
d = 4
words = ['111000']
w = -1

---
Field(w)
kind = 'words'
n = 6
d = 4
words = ['111000']
w = 3.0

---
Unknown
kind = 'words'
n = 6
d = 4
words = ['111000']
w = 3
basis = []

---
Unknown
kind = 'words'
n = 6
d = 4
words = ['111']
word = 'x'

---
Unknown
kind = 'words'
n = 6
d = 4
words = []
[notes]

---
Unknown
kind = 'words'
n = 6
d = 4
words = []
'' = 0

---
Digits(1)
kind = 'words'
n = 6
d = 4
words = ['111100', '11110', '1']

---
Digits(0)
kind = 'words'
n = 6
d = 4
words = ['1111000']

---
Digits(2)
kind = 'words'
n = 6
d = 4
words = ['111100', '111001', '11112a']

---
Digits(0)
kind = 'words'
n = 6
d = 4
words = ['']

---
Size(0)
kind = 'words'
n = 6
d = 4
words = []

---
NotToml
kind =
---
NotToml
kind = 'oracle'
n =
---
NotToml
kind = 'words'; n = 6
---
Kind

---
Kind
n = 6
d = 4
words = []
---
Kind
kind = 'Words'
n = 6
d = 4
words = []
---
Kind
kind = 'words '
n = 0
d = 4
words = []
---
Kind
kind = ['words']
n = 6
d = 4
words = []
---
Field(n)
kind = 'words'
d = 4
words = []
---
Field(d)
kind = 'words'
n = 6
words = 6
---
Field(words)
kind = 'words'
n = 6
d = 4
w = 3
---
Field(size)
kind = 'build'
n = 4
part = 'a'
d = 4
op = 'trim'
size = true
---
Field(size)
kind = 'build'
n = 4
part = 'a'
d = 4
op = 'trim'
size = 4294967297
---
Unknown
kind = 'build'
n = 4
part = 'a'
d = 4
op = 'trim'
size = 1
other = 'a'
---
Field(op)
kind = 'build'
n = 4
part = 'a'
d = 4
op = 'Lengthen'
---
Field(op)
kind = 'build'
n = 4
part = 'a'
d = 4
op = 'uu'
---
Field(op)
kind = 'build'
n = 4
part = 'a'
d = 4
op = 'uuvv'
---
Field(op)
kind = 'build'
n = 4
part = 'a'
d = 4
op = ''
---
Field(d)
kind = 'build'
n = 4
part = 'a'
d = 5
op = 'select'
w = 3
---
Field(d)
kind = 'build'
n = 4
part = 'a'
d = 5
op = 'trim'
w = 3
---
Field(places)
kind = 'build'
n = 4
part = 'a'
d = 4
op = 'puncture'
places = 0
---
Field(places)
kind = 'build'
n = 4
part = 'a'
d = 4
op = 'puncture'
places = [0.0]
---
Field(places)
kind = 'build'
n = 4
part = 'a'
d = 4
op = 'puncture'
places = [4294967296]
---
Field(places)
kind = 'build'
n = 4
part = 'a'
d = 4
op = 'puncture'
places = [0, 1, 2, 3, 4, 5, 6, 7, 8, 9, 10, 11, 12, 13, 14, 15, 16, 17, 18, 19, 20, 21, 22, 23, 24, 25, 26]
---
Digits(0)
kind = 'build'
n = 4
part = 'a'
d = 4
op = 'translate'
by = ''
---
Digits(0)
kind = 'build'
n = 4
part = 'a'
d = 4
op = 'translate'
by = '01010'
---
Digits(0)
kind = 'build'
n = 4
part = 'a'
d = 4
op = 'shorten'
places = [4]
digits = '01'
---
Field(m)
kind = 'odd'
n = 9
d = 4
even = true
m = 20
c = [3, 1, 1]
y = [[8, 16]]
---
Field(m)
kind = 'odd'
n = 9
d = 4
even = true
c = [3, 1, 1]
y = [[8, 16]]
---
Field(m)
kind = 'odd'
n = 9
d = 4
m = 1
c = [-1]
---
Field(m)
kind = 'odd'
n = 9
d = 4
m = 1048577
c = [1]
---
Field(even)
kind = 'odd'
n = 9
d = 5
even = true
m = 20
c = [1]
---
Unknown
kind = 'odd'
n = 9
d = 4
m = 3
c = [1]
w = 4
---
Unknown
kind = 'odd'
n = 9
d = 4
m = 3
c = [1]
cites = ['a']
---
Field(cites)
kind = 'odd'
n = 9
d = 4
m = 3
c = [1]
cites = 'a'
format = 2
---
Unknown
kind = 'dual'
n = 9
d = 4
m = 3
c = [1]
---
Field(y)
kind = 'jlocal'
n = 8
d = 4
w = 4
c = [8, 1]
y = [[1, 8]]
---
Field(y)
kind = 'jlocal'
n = 8
d = 4
w = 4
c = [8, 1]
y = [[5, 8]]
---
Field(y)
kind = 'jlocal'
n = 8
d = 4
w = 4
c = [8, 1]
y = [[3, 8], [2, 8]]
---
Field(y)
kind = 'jlocal'
n = 8
d = 4
w = 4
c = [8, 1]
y = [[2, -8]]
even = false
---
Field(c)
kind = 'jlocal'
n = 8
d = 4
w = 4
c = [-8]
y = [[1, 8]]
---
Field(d)
kind = 'jlocal'
n = 8
d = 5
c = [8, 1]
y = [[3, 8]]
---
Field(w)
kind = 'jlocal'
n = 8
d = 4
c = [8, 1]
y = [[2, 8]]
---
Unknown
kind = 'jlocal'
n = 8
d = 4
w = 4
c = [8, 1]
y = [[2, 8]]
even = false
---
Unknown
kind = 'jdual'
n = 8
d = 4
w = 4
c = [8, 1]
y = [[2, 8]]";

// Whether the document of the row is refused for the fault before it.
fn is_refused(alloc: Global, row: &str) -> Result<bool, AllocError> {
    match row.split_once('\n') {
        Some((fault, document)) => { Ok(fault_text(alloc, document.as_bytes())?.as_str() == fault) }
        None => Ok(false),
    }
}

#[test]
fn refused_documents(rt: HostRuntime) -> Result<(), Fail> {
    for row in REFUSED.split("\n---\n") {
        assert!(rt; is_refused(rt.alloc(), row)?, "{row}");
    }
    Ok(())
}

/// Bytes that are no UTF-8.
#[test]
fn bytes_that_are_no_text(rt: HostRuntime) {
    let bytes = b"kind = 'words'\nn = 6\nd = 4\nwords = [] # \xff";
    assert!(rt; read_evidence(rt.alloc(), bytes).err() == Some(DocumentFault::NotToml));
}
