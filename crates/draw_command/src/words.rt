//! What the words of the command line ask for.
ghost use Rattle.std.specs.Prelude.{◌≡◌, ◌≤◌, None, IfErr, IfOk, IfSome, List, length, map, string_bytes};
ghost use Rattle.clap.specs.Words.{Row, app_of, found_of, rows_of};
ghost use Rattle.option_words.specs.Given.{AreGiven};
ghost use Rattle.option_words.specs.Options.{Shows};
ghost use Rattle.draw_command.specs.Words.{AreTaken, IsSecond, app, number_of, setting_of};
ghost use Rattle.draw_command.specs.Words.{size_asked as size_asked_lem, subject_named, word_of};
ghost use Rattle.draw_command.specs.declared.words.Request.{Request};
ghost use Rattle.draw_command.specs.declared.words.Subject.{Subject};

use clap::{ArgMatches, Command};
use lift_picture::Size;
use option_words::{Setting, WordsFault, options_given, with_option};
use std::alloc::{AllocError, Global};

/// The smallest width and height.
const LEAST: u64 = 400;

/// The greatest width and height.
const MOST: u64 = 10_000;

/// The width where none is given.
const WIDTH: u64 = 1_200;

/// The height where none is given.
const HEIGHT: u64 = 600;

/// What is drawn.
#[derive(Clone, Copy)]
pub(crate) enum Subject {
    /// A day, by its log.
    Day,
    /// The plan of an answer.
    Plan,
}

/// An option of a picture's size.
#[derive(Clone, Copy)]
pub(crate) enum SizeOption {
    Width,
    Height,
}

/// What is asked for.
#[derive(Clone, Copy)]
pub(crate) struct Request {
    pub subject: Subject,
    pub size: Size,
}

impl Subject {
    /// What is drawn by this word.
    fn named(word: &str) -> Option<Subject>
        ensures { result ≡ subject_named word.now }
    {
        match word {
            "day" => Some(Subject::Day),
            "plan" => Some(Subject::Plan),
            _ => None,
        }
    }

    /// The word by which it is asked for.
    fn word(self) -> &'static str
        ensures { result.now ≡ word_of self }
    {
        match self {
            Subject::Day => "day",
            Subject::Plan => "plan",
        }
    }
}

impl SizeOption {
    /// Its name, its range and its default.
    fn setting(self) -> Setting
        ensures { Shows result (setting_of self) }
    {
        match self {
            SizeOption::Width => Setting::new("width", LEAST, MOST, WIDTH),
            SizeOption::Height => Setting::new("height", LEAST, MOST, HEIGHT),
        }
    }

    /// The number that it is given, where that is in its range, or its default.
    fn number(self, matches: &ArgMatches<'_>) -> Option<u32>
        ensures { result ≡ number_of (rows_of (found_of matches.now)) self }
    {
        let number = self.setting().number(matches)?;
        Some(number as u32)
    }
}

/// The subject with its options, for `clap`.
fn as_command<'a>(alloc: Global, subject: Subject) -> Result<Command<'a>, AllocError>
    ensures { IfOk result (λ built. app_of built ≡ app subject) }
{
    let word: &'a str = subject.word();
    let width: &'a str = SizeOption::Width.setting().name;
    let height: &'a str = SizeOption::Height.setting().name;
    let with_width = with_option(alloc, Command::new(alloc, word), width)?;
    with_option(alloc, with_width, height)
}

/// What `clap` finds in the words of the command line, of which the second is that of the subject.
fn parse<'a>(
    alloc: Global,
    subject: Subject,
    words: &'a [String],
) -> Result<ArgMatches<'a>, WordsFault>
    requires { 2 ≤ length words.now }
    ensures given { IfOk result (λ m.
        AreGiven (app subject) (map string_bytes words.entry.now) (rows_of (found_of m))) }
    ensures refused { IfErr result (λ fault. fault ≡ WordsFault.NotTaken → (rows : List Row)
        → AreGiven (app subject) (map string_bytes words.entry.now) rows → ⊥) }
{
    match as_command(alloc, subject) {
        Ok(command) => options_given(command, words),
        Err(_) => Err(WordsFault::NoMemory),
    }
}

/// The size that is asked for.
fn size_asked(matches: &ArgMatches<'_>) -> Option<Size>
    ensures { result ≡ size_asked_lem (rows_of (found_of matches.now)) }
{
    let width = SizeOption::Width.number(matches)?;
    let height = SizeOption::Height.number(matches)?;
    Some(Size { width, height })
}

/// The subject that the second word names.
fn subject_in(words: &[String]) -> Option<Subject>
    ensures known { IfSome result (λ subject. IsSecond (map string_bytes words.now) subject) }
    ensures long { IfSome result (λ _. 2 ≤ length words.now) }
    ensures none { result ≡ None → (subject : Subject) → IsSecond (map string_bytes words.now) subject → ⊥ }
{
    let word = words.get(1)?;
    Subject::named(word.as_str())
}

/// Reads the words of the command line, of which the first is the program's name: `day` or `plan`, and the
/// options of the picture's size, each at most once. `NotTaken` comes exactly where they ask for no picture,
/// unless memory runs out.
pub(crate) fn read_words(alloc: Global, words: &[String]) -> Result<Request, WordsFault>
    ensures taken { IfOk result (λ request. AreTaken (map string_bytes words.now) request) }
    ensures refused { IfErr result (λ fault. fault ≡ WordsFault.NotTaken
        → (request : Request) → AreTaken (map string_bytes words.now) request → ⊥) }
    ensures one { IfOk result (λ request. (other : Request)
        → AreTaken (map string_bytes words.now) other → other ≡ request) }
{
    let Some(subject) = subject_in(words) else {
        return Err(WordsFault::NotTaken);
    };
    let matches = parse(alloc, subject, words)?;
    match size_asked(&matches) {
        Some(size) => Ok(Request { subject, size }),
        None => Err(WordsFault::NotTaken),
    }
}
