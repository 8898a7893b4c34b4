//! Numbers and entries at the end of a text.

ghost use Rattle.std.specs.Prelude.{◌≡◌, ◌++◌, codes, OnOk, OnErr};
ghost use Rattle.std.specs.Fmt.{decimal};
ghost use Rattle.ct_text.specs.Growing.{Grows};
ghost use Rattle.ct_text.specs.Number.{spaced};
ghost use Rattle.ct_text.specs.EntryText.{weight_text, entry_text, weight_word, entry_words};

use crate::digits::Digits;
use ct_words::Entry;
use std::alloc::{AllocError, Global};

/// Puts the decimal digits of the number at the end of the text. After an `Err`, which is want of memory, the text is as
/// before.
pub fn put_number(_alloc: Global, text: &mut Vec<u8>, number: u64) -> Result<(), AllocError>
    ensures ok { OnOk result (text.new.items ≡ text.old.items ++ decimal number) }
    ensures err { OnErr result (text.new.items ≡ text.old.items) }
    ensures grown { Grows text.old.items text.new.items }
{
    text.extend_from_slice(Digits::of(number).as_bytes())
}

/// Puts a space and the number at the end of the text. After an `Err`, which is want of memory, a part of them may stand there.
pub fn put_spaced(alloc: Global, text: &mut Vec<u8>, number: u64) -> Result<(), AllocError>
    ensures ok { OnOk result (text.new.items ≡ text.old.items ++ spaced number) }
    ensures grown { Grows text.old.items text.new.items }
{
    text.push(b' ')?;
    put_number(alloc, text, number)
}

/// Puts a name and a number at the end of the text. `Err` is want of memory.
pub fn put_numbered(
    alloc: Global,
    text: &mut Vec<u8>,
    name: &[u8],
    number: u64,
) -> Result<(), AllocError>
    ensures { OnOk result (text.new.items ≡ text.old.items ++ (name.now ++ spaced number)) }
{
    text.extend_from_slice(name)?;
    put_spaced(alloc, text, number)
}

/// Puts a name and two numbers at the end of the text. `Err` is want of memory.
pub fn put_numbered_pair(
    alloc: Global,
    text: &mut Vec<u8>,
    name: &[u8],
    first: u64,
    second: u64,
) -> Result<(), AllocError>
    ensures { OnOk result (text.new.items ≡ text.old.items ++ (name.now ++ spaced first ++ spaced second)) }
{
    put_numbered(alloc, text, name, first)?;
    put_spaced(alloc, text, second)
}

/// Puts a comma and the weight, where there is one, at the end of the text.
fn put_weight(alloc: Global, text: &mut Vec<u8>, w: Option<u32>) -> Result<(), AllocError>
    ensures ok { OnOk result (text.new.items ≡ text.old.items ++ weight_text w) }
    ensures grown { Grows text.old.items text.new.items }
{
    match w {
        None => Ok(()),
        Some(w) => {
            text.extend_from_slice(b",")?;
            put_number(alloc, text, u64::from(w))
        }
    }
}

/// Puts `A(`, the two numbers and a comma between them at the end of the text.
fn put_pair(alloc: Global, text: &mut Vec<u8>, n: u32, d: u32) -> Result<(), AllocError>
    ensures ok { OnOk result (text.new.items ≡ text.old.items ++ (codes "A(" ++ decimal n ++ codes "," ++ decimal d)) }
    ensures grown { Grows text.old.items text.new.items }
{
    text.extend_from_slice(b"A(")?;
    put_number(alloc, text, u64::from(n))?;
    text.extend_from_slice(b",")?;
    put_number(alloc, text, u64::from(d))
}

/// Puts the entry, as A(N,D) or A(N,D,W), at the end of the text. After an `Err`, which is want of memory, a part of it may
/// stand there.
pub fn put_entry(alloc: Global, text: &mut Vec<u8>, entry: Entry) -> Result<(), AllocError>
    ensures ok { OnOk result (text.new.items ≡ text.old.items ++ entry_text entry) }
    ensures grown { Grows text.old.items text.new.items }
{
    put_pair(alloc, text, entry.n, entry.d)?;
    put_weight(alloc, text, entry.w)?;
    text.extend_from_slice(b")")
}

/// Puts a space and the weight, where there is one, at the end of the text.
fn put_weight_word(alloc: Global, text: &mut Vec<u8>, w: Option<u32>) -> Result<(), AllocError>
    ensures { OnOk result (text.new.items ≡ text.old.items ++ weight_word w) }
{
    match w {
        None => Ok(()),
        Some(w) => put_spaced(alloc, text, u64::from(w)),
    }
}

/// Puts the entry as commands name it, `N D` or `N D W`, at the end of the text. After an `Err`, which is want of memory, a part of it may stand there.
pub fn put_entry_words(alloc: Global, text: &mut Vec<u8>, entry: Entry) -> Result<(), AllocError>
    ensures { OnOk result (text.new.items ≡ text.old.items ++ entry_words entry) }
{
    put_number(alloc, text, u64::from(entry.n))?;
    put_spaced(alloc, text, u64::from(entry.d))?;
    put_weight_word(alloc, text, entry.w)
}
