//! The forms of a script's lines, as docs/SCRIPTS.md lists them.

/// The form of each line that isn't blank or a comment: its first word, then what each other word is.
pub(crate) const FORMS: &[&str] = &[
    "advance G C",
    "assign",
    "cut V",
    "deliver G M L.K",
    "grow",
    "hydrate G M",
    "issue V G:B:O:HEX",
    "offer G M N",
    "open V",
    "read V G B",
    "refresh V",
    "resend V N",
    "restart G M",
    "take V L.K",
    "wait",
];

/// Returns the first word of a text.
pub(crate) fn first_word(text: &str) -> &str {
    text.split_once(' ').map_or(text, |(first, _)| first)
}

/// Returns the form that begins with a word, if there is one.
pub(crate) fn form_of(word: &str) -> Option<&'static str> {
    FORMS.iter().copied().find(|form| first_word(form) == word)
}

/// Returns the greatest number that a letter of a form stands for.
pub(crate) fn most_of(letter: &str) -> u64 {
    match letter {
        "G" | "M" => 255,
        "O" => 65_535,
        "B" | "C" | "V" => 4_294_967_295,
        _ => u64::MAX,
    }
}

/// Returns whether two words of the same length differ in one letter, or in two that have changed places.
fn is_misspelt(word: &[u8], meant: &[u8]) -> bool {
    let mut differing = 0usize;
    let (mut had, mut wanted) = (0u64, 0u64);
    for (byte, other) in word.iter().zip(meant.iter()) {
        if byte.to_ascii_lowercase() != *other {
            differing = differing.saturating_add(1);
            had = had.saturating_add(u64::from(*byte));
            wanted = wanted.saturating_add(u64::from(*other));
        }
    }
    differing <= 1 || (differing == 2 && had == wanted)
}

/// Returns whether a word is another with one letter more.
fn has_one_more(longer: &[u8], shorter: &[u8]) -> bool {
    let mut skipped = 0usize;
    for (at, byte) in longer.iter().enumerate() {
        match shorter.get(at.saturating_sub(skipped)) {
            Some(other) if *other == *byte => {}
            _ => skipped = skipped.saturating_add(1),
        }
    }
    skipped <= 1
}

/// Returns whether a word may be a misspelling of another: one letter is wrong, missing or too many, or two have
/// changed places; capitals count as small letters.
fn is_near(word: &[u8], meant: &[u8]) -> bool {
    if word.len() == meant.len() {
        return is_misspelt(word, meant);
    }
    if word.len() == meant.len().saturating_add(1) {
        return has_one_more(word, meant);
    }
    word.len().saturating_add(1) == meant.len() && has_one_more(meant, word)
}

/// Returns the word that a misspelt first word may mean.
pub(crate) fn meant_by(word: &str) -> Option<&'static str> {
    let mut meant = FORMS.iter().map(|form| first_word(form));
    meant.find(|meant| is_near(word.as_bytes(), meant.as_bytes()))
}
