//! What is wrong with the first bad line of a script, in words.

use crate::line_forms::{FORMS, first_word, form_of, meant_by, most_of};
use crate::page::Page;
use std::alloc::{AllocError, Global};
use std::fmt;

/// How many lines a script has at most.
const SCRIPT_LINES: usize = 100_000;

/// How many bytes a script has at most.
const SCRIPT_BYTES: usize = 16_777_216;

/// How many hexadecimal digits a change has at most.
const MOST_DIGITS: usize = 128;

/// How many bytes of a word are shown.
const SHOWN: usize = 40;

/// The form of a change.
const CHANGE: &str = "G:B:O:HEX";

/// Why the check of a line ends: what is wrong with it is in the words, or memory ran out.
#[derive(Clone, Copy)]
enum Stop {
    Bad,
    NoMemory,
}

impl From<AllocError> for Stop {
    fn from(_: AllocError) -> Stop {
        Stop::NoMemory
    }
}

/// A character, shown as an escape if it is a control character.
#[derive(Clone, Copy)]
struct Shown(char);

impl fmt::Display for Shown {
    fn fmt<W: fmt::Write>(&self, f: &mut fmt::Formatter<W>) -> fmt::Result {
        let c = self.0;
        if c.is_control() {
            let code = c as u32;
            return write!(f, "\\x{code:02x}");
        }
        write!(f, "{c}")
    }
}

/// A word, shown in quotation marks and cut if it is long.
#[derive(Clone, Copy)]
struct Quoted<'a>(&'a str);

impl fmt::Display for Quoted<'_> {
    fn fmt<W: fmt::Write>(&self, f: &mut fmt::Formatter<W>) -> fmt::Result {
        write!(f, "\"")?;
        let mut written = 0usize;
        for c in self.0.chars() {
            if written >= SHOWN {
                return write!(f, "\"..");
            }
            let shown = Shown(c);
            write!(f, "{shown}")?;
            let width = if c.is_control() { 4 } else { c.len_utf8() };
            written = written.saturating_add(width);
        }
        write!(f, "\"")
    }
}

/// Ends a check whose words were written.
fn ended(written: Result<(), AllocError>) -> Result<(), Stop> {
    written?;
    Err(Stop::Bad)
}

/// Ends a check with a word and what is wrong with it.
fn refuse(words: &mut String, word: &str, fault: &str) -> Result<(), Stop> {
    let word = Quoted(word);
    ended(write!(words, "{word} {fault}"))
}

/// Returns whether a word has decimal digits alone, one at least.
fn is_decimal(word: &str) -> bool {
    !word.is_empty() && word.chars().all(|c| c.is_ascii_digit())
}

/// Returns whether a number begins with a zero that it doesn't need.
fn has_leading_zero(word: &str) -> bool {
    word.len() > 1 && word.starts_with('0')
}

/// Checks a number, for which a form has this letter.
fn check_number(words: &mut String, word: &str, letter: &str) -> Result<(), Stop> {
    let most = most_of(letter);
    let quoted = Quoted(word);
    if !is_decimal(word) {
        return ended(write!(words, "{quoted} isn't a decimal number, for {letter}"));
    }
    if has_leading_zero(word) {
        return refuse(words, word, "has a leading zero");
    }
    match word.parse::<u64>() {
        Ok(number) if number <= most => Ok(()),
        _ => ended(write!(words, "{quoted} is out of range: {letter} is 0 to {most}")),
    }
}

/// Returns the number of a line or of a message that a word spells.
fn counted(word: &str) -> Option<u64> {
    match word.parse::<u64>() {
        Ok(number) if is_decimal(word) && !has_leading_zero(word) => Some(number),
        _ => None,
    }
}

/// Checks the name of a message in line `line`.
fn check_message(words: &mut String, word: &str, line: u64) -> Result<(), Stop> {
    let (of, place) = word.split_once('.').unwrap_or(("", ""));
    let (Some(of), Some(place)) = (counted(of), counted(place)) else {
        return refuse(words, word, "isn't of the form L.K, message K of line L");
    };
    let fault = match place {
        _ if of == 0 => "line 0: lines count from 1",
        _ if of == line => "this line: name an earlier one",
        _ if of > line => "a later line",
        0 => "message 0: a line's messages count from 1",
        _ => return Ok(()),
    };
    ended(write!(words, "{word} names {fault}"))
}

/// Checks the hexadecimal digits of a change.
fn check_digits(words: &mut String, digits: &str, change: &str) -> Result<(), Stop> {
    if digits.is_empty() {
        return refuse(words, change, "has no bytes behind the last colon");
    }
    for digit in digits.chars() {
        if !matches!(digit, '0'..='9' | 'a'..='f') {
            let (quoted, shown) = (Quoted(digits), Shown(digit));
            let written = write!(
                words,
                "{quoted} has '{shown}', which isn't one of the digits 0-9 and a-f"
            );
            return ended(written);
        }
    }
    if digits.len() % 2 != 0 {
        return refuse(words, digits, "has an odd number of digits");
    }
    if digits.len() > MOST_DIGITS {
        return refuse(words, digits, "has more than 64 bytes");
    }
    Ok(())
}

/// Checks a change.
fn check_change(words: &mut String, word: &str) -> Result<(), Stop> {
    let mut parts = word.split(':');
    let place = (parts.next(), parts.next(), parts.next());
    let digits = (parts.next(), parts.next());
    let ((Some(group), Some(block), Some(offset)), (Some(digits), None)) = (place, digits) else {
        return refuse(words, word, "isn't of the form G:B:O:HEX");
    };
    check_number(words, group, "G")?;
    check_number(words, block, "B")?;
    check_number(words, offset, "O")?;
    check_digits(words, digits, word)
}

/// Checks the words of line `line`, whose form begins with the same word.
fn check_words(words: &mut String, line: u64, text: &str, form: &str) -> Result<(), Stop> {
    let mut rest = text.split(' ');
    let _ = rest.next();
    for kind in form.split(' ').skip(1) {
        let Some(word) = rest.next() else {
            return ended(write!(words, "too few words: expected \"{form}\""));
        };
        match kind {
            "L.K" => check_message(words, word, line)?,
            CHANGE => check_change(words, word)?,
            letter => check_number(words, word, letter)?,
        }
    }
    for word in rest {
        if !form.ends_with(CHANGE) {
            let word = Quoted(word);
            return ended(write!(words, "too many words, from {word} on: expected \"{form}\""));
        }
        check_change(words, word)?;
    }
    Ok(())
}

/// Appends an unknown word, and the one that may be meant, or those that there are.
fn add_unknown(words: &mut String, word: &str) -> Result<(), AllocError> {
    let quoted = Quoted(word);
    write!(words, "unknown word {quoted}; ")?;
    if let Some(meant) = meant_by(word) {
        return write!(words, "did you mean \"{meant}\"?");
    }
    words.push_str("a line begins with # or one of")?;
    for form in FORMS {
        let word = first_word(form);
        write!(words, " {word}")?;
    }
    Ok(())
}

/// Checks the text of line `line`.
fn check_text(words: &mut String, line: u64, text: &str) -> Result<(), Stop> {
    let fault = match text {
        _ if text.is_empty() || text.starts_with('#') => return Ok(()),
        _ if text.starts_with('\u{feff}') =>
            "begins with a byte order mark: save the file without one",
        _ if text.ends_with('\r') => "ends with CR LF: end lines with LF alone",
        _ if text.contains('\t') => "has a tab: separate words by one space",
        _ if text.starts_with(' ') => "begins with a space",
        _ if text.ends_with(' ') => "ends with a space",
        _ if text.contains("  ") => "has two spaces in a row: separate words by one space",
        _ => "",
    };
    if !fault.is_empty() {
        return ended(words.push_str(fault));
    }
    let word = first_word(text);
    match form_of(word) {
        Some(form) => check_words(words, line, text, form),
        None => ended(add_unknown(words, word)),
    }
}

/// Checks line `number`, which ends behind `end` bytes of the script.
fn check_line(words: &mut String, line: &[u8], number: usize, end: usize) -> Result<(), Stop> {
    if number > SCRIPT_LINES {
        return ended(words.push_str("a script has at most 100,000 lines"));
    }
    if end > SCRIPT_BYTES {
        return ended(words.push_str(
            "ends behind the first 16,777,216 bytes, the most of a script",
        ));
    }
    match str::from_utf8(line) {
        Ok(text) => check_text(words, number as u64, text),
        Err(_) => ended(words.push_str("isn't UTF-8 text")),
    }
}

/// Returns the line with a number, from 1, of a text, and how many bytes the text has up to its end.
fn line_at(text: &[u8], number: usize) -> (&[u8], usize) {
    let mut line: &[u8] = &[];
    let mut end = 0usize;
    for next in text.split(|byte| *byte == b'\n').take(number) {
        line = next;
        end = end.saturating_add(line.len()).saturating_add(1);
    }
    (line, end.min(text.len()))
}

/// Returns what is wrong with line `number` of a script's text, or `None` if it is one of a script.
///
/// # Errors
/// Memory ran out.
pub fn bad_line(alloc: Global, text: &[u8], number: usize) -> Result<Option<String>, AllocError> {
    let (line, end) = line_at(text, number);
    let mut words = format!(in alloc; "line {number}: ")?;
    match check_line(&mut words, line, number, end) {
        Ok(()) => return Ok(None),
        Err(Stop::NoMemory) => return Err(AllocError),
        Err(Stop::Bad) => {}
    }
    let mut page = Page::new(alloc);
    page.add(0, words.as_str())?;
    Ok(Some(page.into_text()))
}
