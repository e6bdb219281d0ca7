//! Tests of the words after the command, before `clap` reads them.
ghost use Rattle.std.specs.Prelude.{◌≡◌, ◌↔◌, IsTrue, codes, map, string_bytes, take};
ghost use Rattle.std.specs.List.{Contains};
ghost use Rattle.option_words.specs.Given.{AreUnclear};
ghost use Rattle.option_words.specs.Repeats.{IsRepeated, Repeats, RepeatsOneOf, named_part};

/// Whether a word is `--` alone, or an option is repeated.
pub(crate) fn are_unclear(options: &[String]) -> bool
    ensures { IsTrue result ↔ AreUnclear (map string_bytes options.now) }
{
    has_lone_dashes(options) || has_repeats(options)
}

/// Whether a word is `--` alone.
fn has_lone_dashes(words: &[String]) -> bool
    ensures { IsTrue result ↔ Contains (map string_bytes words.now) (codes "--") }
{
    for word in words {
        if is_lone_dashes(word) {
            return true;
        }
    }
    false
}

fn is_lone_dashes(word: &String) -> bool
    ensures { IsTrue result ↔ (string_bytes word.now ≡ codes "--") }
{
    word.as_str() == "--"
}

/// Whether an option is repeated.
fn has_repeats(words: &[String]) -> bool
    ensures { IsTrue result ↔ IsRepeated (map string_bytes words.now) }
{
    for place in 0..words.len() {
        if is_repeated_in(&words[place], &words[place + 1..]) {
            return true;
        }
    }
    false
}

/// Whether one of the words repeats this one.
fn is_repeated_in(word: &String, words: &[String]) -> bool
    ensures { IsTrue result ↔ RepeatsOneOf (string_bytes word.now) (map string_bytes words.now) }
{
    for other in words {
        if repeats(word, other) {
            return true;
        }
    }
    false
}

/// Whether both words give one option.
fn repeats(first: &String, second: &String) -> bool
    ensures { IsTrue result ↔ Repeats (string_bytes first.now) (string_bytes second.now) }
{
    is_option(first)
        && is_option(second)
        && named_part(first.as_str()) == named_part(second.as_str())
}

/// Whether the word begins with two dashes.
fn is_option(word: &String) -> bool
    ensures { IsTrue result ↔ (take 2 (string_bytes word.now) ≡ codes "--") }
{
    word.as_str().as_bytes().starts_with(b"--")
}

/// The word up to its first `=`, or all of it where it has none.
fn named_part(word: &str) -> &str
    ensures { result.now ≡ named_part word.now }
{
    match word.split_once('=') {
        Some((name, _)) => name,
        None => word,
    }
}
