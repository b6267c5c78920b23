ghost use Rattle.std.specs.Prelude.{◌≡◌, ◌∷◌, [], ◌↔◌, IsTrue, map};
ghost use Rattle.std.specs.String.{string_bytes};
ghost use Rattle.lake_script.specs.Commands.{IsCheck, IsCommand};

/// Whether the words are a command that runs a script, which is so far `run` alone.
pub fn is_command(words: &Vec<String>) -> bool
    ensures { IsTrue result ↔ IsCommand (map string_bytes words.now.items) }
{
    is_word(words, "run")
}

/// Whether the words ask for a script to be read and not run.
pub fn is_check(words: &Vec<String>) -> bool
    ensures { IsTrue result ↔ IsCheck (map string_bytes words.now.items) }
{
    is_word(words, "check")
}

/// Whether the words are this one alone.
fn is_word(words: &Vec<String>, wanted: &str) -> bool
    ensures { IsTrue result ↔ (map string_bytes words.now.items ≡ wanted.now ∷ []) }
{
    match words.as_slice() {
        [word] => word.as_str() == wanted,
        _ => false,
    }
}
