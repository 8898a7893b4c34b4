//! What one line of a session asks for.

ghost use Rattle.std.specs.Prelude.{◌≡◌, ◌==◌, IfOk, map, slice_index};
ghost use Rattle.ct_text.specs.Number.{number_of};
ghost use Rattle.ct_text.specs.EntryNumbers.{entry_numbers_of};
ghost use Rattle.ct_text.specs.TableNumbers.{table_numbers_of};
ghost use Rattle.ct_commands.specs.Form.{form_of, words_form, submit_form, lines_form, withdrawal, alone, explanation, command_of};

use crate::command::Command;
use ct_names::Id;
use ct_text::{
    Extent, first_words, parse_entry_numbers, parse_number, parse_side, parse_table_numbers,
};
use std::alloc::{AllocError, Global};

// So many words of a line tell what it asks for: no form has more than five, and a sixth shows that there are too many.
const MOST_WORDS: usize = 6;

/// What one line of a session asks for.
#[derive(Drop)]
pub enum Form {
    /// Nothing: a line without words, or one that begins with `#`.
    Nothing,
    /// A submission, whose document follows: its id, and how far the document goes. If the line is neither `submit ID` nor
    /// `submit ID lines K` with a number K of at least 1, there is no id, and the document goes to the line `end`. If it is
    /// one of these, but the word ID is not an id, there is no id, and the document goes as far as the line says.
    Submit(Option<Id>, Extent),
    /// This command, which the line is by itself.
    Whole(Command),
}

/// A submission whose document has a given number of lines.
fn lines(id: Option<Id>, count: Option<u64>) -> Form
    ensures { result ≡ lines_form id count }
{
    match count {
        Some(count) if count > 0 => Form::Submit(id, Extent::Lines(count)),
        _ => Form::Submit(None, Extent::ToEnd),
    }
}

/// What the words after `submit` ask for.
fn submission(words: &[&[u8]]) -> Form
    ensures { result ≡ submit_form (map (λ word. word.now) words.now) }
{
    match words {
        [id] => Form::Submit(Id::parse(id), Extent::ToEnd),
        [id, word, count] if *word == b"lines".as_slice() => {
            lines(Id::parse(id), parse_number(count))
        }
        _ => Form::Submit(None, Extent::ToEnd),
    }
}

/// The withdrawal that the words ask for, if they are an id, or an id and `all`.
fn withdrawal(words: &[&[u8]]) -> Option<Command>
    ensures { result ≡ withdrawal (map (λ word. word.now) words.now) }
{
    match words {
        [id] => Id::parse(id).map(Command::Withdraw),
        [id, word] if *word == b"all".as_slice() => Id::parse(id).map(Command::WithdrawAll),
        _ => None,
    }
}

/// The command, where no words stand after its name.
fn alone(command: Command, words: &[&[u8]]) -> Option<Command>
    ensures { result ≡ alone command (map (λ word. word.now) words.now) }
{
    if words.is_empty() {
        Some(command)
    } else {
        None
    }
}

/// The explanation that the words ask for, if they are a side and the numbers of an entry.
fn explanation(words: &[&[u8]]) -> Option<Command>
    ensures { result ≡ explanation (map (λ word. word.now) words.now) }
{
    let [side, numbers @ ..] = words else {
        return None;
    };
    Some(Command::Explain(parse_side(side)?, parse_entry_numbers(numbers)?))
}

/// The command that a name and the words after it make, if they make one: a row for each command that is one line.
fn command_of(name: &[u8], words: &[&[u8]]) -> Option<Command>
    ensures { result ≡ command_of name.now (map (λ word. word.now) words.now) }
{
    if name == b"withdraw".as_slice() {
        withdrawal(words)
    } else if name == b"show".as_slice() {
        parse_entry_numbers(words).map(Command::Show)
    } else if name == b"table".as_slice() {
        parse_table_numbers(words).map(Command::Table)
    } else if name == b"explain".as_slice() {
        explanation(words)
    } else if name == b"list".as_slice() {
        parse_entry_numbers(words).map(Command::List)
    } else if name == b"ledger".as_slice() {
        alone(Command::Ledger, words)
    } else if name == b"dump".as_slice() {
        alone(Command::Dump, words)
    } else {
        None
    }
}

/// What the words of a line ask for.
fn form_of_words(words: &[&[u8]]) -> Form
    ensures { result ≡ words_form (map (λ word. word.now) words.now) }
{
    let [name, rest @ ..] = words else {
        return Form::Nothing;
    };
    if *name == b"submit".as_slice() {
        submission(rest)
    } else {
        Form::Whole(command_of(name, rest).unwrap_or(Command::Unknown))
    }
}

/// Whether the first byte of the line is `#`.
fn is_comment(line: &[u8]) -> bool
    ensures { result ≡ (slice_index line.now 0 == 35) }
{
    line.first() == Some(&b'#')
}

/// What a line of a session asks for. `Err` is want of memory.
#[tactic(auto, unfolding(crate::specs::Form::form_of))]
pub fn read_form(alloc: Global, line: &[u8]) -> Result<Form, AllocError>
    ensures { IfOk result (λ form. form ≡ form_of line.now) }
{
    if is_comment(line) {
        return Ok(Form::Nothing);
    }
    let words = first_words(alloc, line, MOST_WORDS)?;
    Ok(form_of_words(&words))
}
