//! Turns: who types a session line by line has each reply before the next line is asked for.

ghost use Rattle.std.specs.Prelude.{None};

use ct_io::{Failed, Sink, Source};
use ct_run::{Status, run};
use std::alloc::{AllocError, Global};
use std::cell::Cell;
use std::process::Abort;
use std::test::Fail;

/// One side of a terminal: it gives a line at each read, and notes how many bytes stood on the other side when it was asked.
#[derive(Drop)]
struct Keyboard<'a> {
    // The turns that are left.
    turns: &'a str,
    shown: &'a Cell<usize>,
    asked: Vec<usize>,
    // How many bytes could not be given or noted.
    faults: u64,
}

/// The other side: it keeps what is written, and how many bytes these are.
#[derive(Drop)]
struct Screen<'a> {
    shown: &'a Cell<usize>,
    bytes: Vec<u8>,
    faults: u64,
}

/// The first line of the text with the line feed at its end, or nothing.
fn first_line(text: &str) -> &str {
    text.split_inclusive('\n').next().unwrap_or("")
}

impl Source for Keyboard<'_> {
    ghost left = { λ _. None };

    ghost faults = { λ s. s.faults };

    fn read(&mut self, into: &mut [u8]) -> Result<usize, Failed> {
        let (turn, rest) = self.turns.split_once("> ").unwrap_or((self.turns, ""));
        let line = first_line(turn).as_bytes();
        if self.asked.push(self.shown.get()).is_err() || line.len() > into.len() {
            self.faults = self.faults.saturating_add(1);
            return Err(Failed);
        }
        into[..line.len()].copy_from_slice(line);
        self.turns = rest;
        Ok(line.len())
    }
}

impl Sink for Screen<'_> {
    ghost holds = { λ _. None };

    ghost faults = { λ s. s.faults };

    fn write(&mut self, piece: &[u8]) -> Result<usize, Failed> {
        if self.bytes.extend_from_slice(piece).is_err() {
            self.faults = self.faults.saturating_add(1);
            return Err(Failed);
        }
        self.shown.set(self.bytes.len());
        Ok(piece.len())
    }
}

/// Lines that are typed, with a sign between them, and what is shown after each before the next one is asked for: every command, refusals, lines
/// that ask for nothing, and an end that cuts a submission off.
const TURNS: &str = "\
# two words
> 
> show 4 3
A(4,3) = 2
> submit two
> kind = \"words\"
> n = 4
> d = 3
> 
> words = [\"0000\", \"1110\"]
> end
accepted two size 2
> ledger
two words 4 3 size 2
pieces 1
> submit two lines 1
> kind = \"words\"
refused taken
> table 4 30
A(30,4,30) = 1
> table 2
refused entry
> show 4
refused command
> withdraw three
refused nosuch three
> withdraw two
withdrawn two
> dump
# dump of 0 pieces
> dump x
refused command
> submit last
> kind = \"words\"
";

/// What was shown before the end was asked for. Before each line, just the replies to those before it were shown.
fn shown_in_turn(rt: &impl Abort, alloc: Global, asked: &[usize]) -> Result<Vec<u8>, AllocError> {
    let mut shown = Vec::new(alloc);
    let mut asked = asked.iter();
    for turn in TURNS.split("> ") {
        assert!(rt; asked.next() == Some(&shown.len()), "before {turn}");
        if let Some((_, reply)) = turn.split_once('\n') {
            shown.extend_from_slice(reply.as_bytes())?;
        }
    }
    assert!(rt; asked.next() == Some(&shown.len()), "before the end");
    Ok(shown)
}

/// Whether just this was shown, and behind it the refusal of the submission that is cut off.
fn is_shown(shown: &[u8], bytes: &[u8]) -> bool {
    bytes.strip_prefix(shown) == Some(b"refused cut\n".as_slice())
}

#[test]
fn each_reply_comes_before_the_next_line(rt: HostRuntime) -> Result<(), Fail> {
    let alloc = rt.alloc();
    let shown = Cell::new(0);
    let mut keyboard = Keyboard {
        turns: TURNS,
        shown: &shown,
        asked: Vec::new(alloc),
        faults: 0,
    };
    let mut screen = Screen {
        shown: &shown,
        bytes: Vec::new(alloc),
        faults: 0,
    };
    let words = [String::from_str(alloc, "session")?];
    let status = run(alloc, &words, &mut keyboard, &mut screen);
    assert!(rt; matches!(status, Status::Refused));
    assert!(rt; is_shown(&shown_in_turn(&rt, alloc, &keyboard.asked)?, &screen.bytes));
    Ok(())
}
