//! Words that no command line has.

ghost use Rattle.std.specs.Prelude.{◌≡◌, [], option_map};
ghost use Rattle.ct_command_line.specs.CommandLine.{bytes_of, first_unknown, is_known};

/// Whether some command line has the word and it is no option's value: it is a mode, the option `--number`, alone or with a value behind `=`, or the
/// dashes behind which no word is an option.
fn is_known(word: &str) -> bool
    ensures { result ≡ is_known word.now }
{
    matches!(
        word,
        "session" | "verify" | "find" | "sample" | "--number" | "--"
    ) || word.as_bytes().starts_with(b"--number=")
}

/// The first of the words after the program's name that no command line has: it is none that `is_known` takes, and doesn't stand right behind
/// `--number`. `None` comes where there is no such word; the words may still be no command line.
pub fn first_unknown_word(words: &[String]) -> Option<&str>
    ensures { option_map (λ word. word.now) result ≡ first_unknown [] (bytes_of words.now) }
{
    let mut before = "";
    for word in words {
        if !(is_known(word) || before == "--number") {
            return Some(word);
        }
        before = word;
    }
    None
}
