//! Words of a command line that are refused by themselves, and the line or JSON that refuses them.

ghost use Rattle.std.specs.Prelude.{◌≡◌, ◌++◌, ◌∷◌, [], Some, IfOk, OnOk, map, string_bytes};
ghost use Rattle.squall_cli_boards.specs.BadWords.{bad_words, bad_seen, phrase_seen, after_blanks, spaced, bad_line, refusing_words};
ghost use Rattle.squall_cli_boards.specs.BadWords.{key_in, bound_in, span_in, word_seen, text_of_word_fault};

use crate::answer::Answer;
use crate::refusals::refusing_json;
use squall_cli_command::Form;
use squall_key::{Bound, Key};
use squall_span::Span;
use std::alloc::{AllocError, Global};
use std::fmt;

/// Why a word, or several together, are refused.
#[derive(Clone, Copy, Debug, PartialEq, Eq)]
pub(crate) enum WordFault {
    /// The word is no key.
    NoKey,
    /// The word is no bound.
    NoBound,
    /// The words are not two bounds, the first below the second.
    NoSpan,
    /// The word is no partition, or no partition follows the words.
    NoPart,
}

/// The name of the fault.
impl fmt::Display for WordFault {
    ghost output = { λ e. Some (text_of_word_fault e) };

    fn fmt<W: fmt::Write>(&self, f: &mut fmt::Formatter<W>) -> fmt::Result {
        match self {
            WordFault::NoKey => write!(f, "NoKey"),
            WordFault::NoBound => write!(f, "NoBound"),
            WordFault::NoSpan => write!(f, "NoSpan"),
            WordFault::NoPart => write!(f, "NoPart"),
        }
    }
}

/// Words that are refused together.
#[derive(Drop)]
pub(crate) enum Phrase<'a> {
    One(&'a str),
    Two(&'a str, &'a str),
    All(&'a [String]),
}

/// Words that are refused, and why.
#[derive(Drop)]
pub(crate) struct BadWord<'a> {
    pub phrase: Phrase<'a>,
    pub fault: WordFault,
}

/// Adds the words, each after a blank.
fn add_after_blanks(words: &[String], text: &mut String) -> Result<(), AllocError>
    ensures { OnOk result (string_bytes text.new ≡ string_bytes text.old ++ after_blanks (map string_bytes words.now)) }
{
    for word in words {
        text.push_str(" ")?;
        text.push_str(word.as_str())?;
    }
    Ok(())
}

/// The words with a blank between them.
fn spaced(alloc: Global, words: &[String]) -> Result<String, AllocError>
    ensures { IfOk result (λ text. string_bytes text ≡ spaced (map string_bytes words.now)) }
{
    let mut text = String::new(alloc);
    if let [first, others @ ..] = words {
        text.push_str(first.as_str())?;
        add_after_blanks(others, &mut text)?;
    }
    Ok(text)
}

/// Two words with a blank between them.
fn paired(alloc: Global, word: &str, other: &str) -> Result<String, AllocError>
    ensures { IfOk result (λ text. string_bytes text ≡ word.now ++ 32 ∷ other.now) }
{
    format!(in alloc; "{word} {other}")
}

impl<'a> Phrase<'a> {
    /// The words with a blank between them.
    fn text(&self, alloc: Global) -> Result<String, AllocError>
        ensures { IfOk result (λ text. string_bytes text ≡ spaced (phrase_seen self.now)) }
    {
        match self {
            Phrase::One(word) => String::from_str(alloc, word),
            Phrase::Two(word, other) => paired(alloc, word, other),
            Phrase::All(words) => spaced(alloc, words),
        }
    }
}

impl<'a> BadWord<'a> {
    /// One word that is refused.
    pub(crate) fn one(word: &'a str, fault: WordFault) -> BadWord<'a>
        ensures { bad_seen result ≡ bad_words (word.entry.now ∷ []) fault }
    {
        let phrase = Phrase::One(word);
        BadWord { phrase, fault }
    }

    /// Two words that are refused together.
    pub(crate) fn two(word: &'a str, other: &'a str, fault: WordFault) -> BadWord<'a>
        ensures { bad_seen result ≡ bad_words (word.entry.now ∷ other.entry.now ∷ []) fault }
    {
        let phrase = Phrase::Two(word, other);
        BadWord { phrase, fault }
    }

    /// Words that are refused together.
    pub(crate) fn all(words: &'a [String], fault: WordFault) -> BadWord<'a>
        ensures { bad_seen result ≡ bad_words (map string_bytes words.entry.now) fault }
    {
        let phrase = Phrase::All(words);
        BadWord { phrase, fault }
    }

    /// The line that refuses the words.
    pub(crate) fn line(&self, alloc: Global) -> Result<String, AllocError>
        ensures { IfOk result (λ line. string_bytes line ≡ bad_line (bad_seen self.now)) }
    {
        let words = self.phrase.text(alloc)?;
        let fault = self.fault;
        format!(in alloc; "refused {words} {fault}\n")
    }

    /// The answer that refuses the words, in the form.
    pub(crate) fn refused(&self, alloc: Global, form: Form) -> Result<Answer, AllocError>
        ensures { IfOk result (λ a. a ≡ refusing_words form (bad_seen self.now)) }
    {
        match form {
            Form::Lines => Answer::refusing(alloc, self.line(alloc)?.as_str()),
            Form::Json => {
                let words = self.phrase.text(alloc)?;
                let fault = self.fault;
                let fault = format!(in alloc; "{fault}")?;
                refusing_json(alloc, words.as_str(), fault.as_str())
            }
        }
    }
}

/// The key that the word writes, or why there is none.
pub(crate) fn key_in(word: &str) -> Result<Key, BadWord<'_>>
    ensures { word_seen result ≡ key_in word.entry.now }
{
    match Key::read(word) {
        Some(key) => Ok(key),
        None => Err(BadWord::one(word, WordFault::NoKey)),
    }
}

/// The bound that the word writes, or why there is none.
pub(crate) fn bound_in(word: &str) -> Result<Bound, BadWord<'_>>
    ensures { word_seen result ≡ bound_in word.entry.now }
{
    match Bound::read(word) {
        Some(bound) => Ok(bound),
        None => Err(BadWord::one(word, WordFault::NoBound)),
    }
}

/// The span whose bounds the words write, or why there is none.
pub(crate) fn span_of_words<'a>(lo: &'a str, hi: &'a str) -> Result<Span, BadWord<'a>>
    ensures { word_seen result ≡ span_in lo.entry.now hi.entry.now }
{
    let low = match bound_in(lo) {
        Ok(low) => low,
        Err(bad) => return Err(bad),
    };
    let high = match bound_in(hi) {
        Ok(high) => high,
        Err(bad) => return Err(bad),
    };
    match Span::new(low, high) {
        Some(span) => Ok(span),
        None => Err(BadWord::two(lo, hi, WordFault::NoSpan)),
    }
}
