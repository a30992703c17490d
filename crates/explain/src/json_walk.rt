//! A walk over the tokens of a text: it finds the first place that isn't JSON and the first repeated key.

use json::{Reader, Scratch, Token};
use std::alloc::{AllocError, Global};

/// The blanks of JSON.
pub(crate) const BLANKS: [char; 4] = [' ', '\t', '\n', '\r'];

/// The nesting limit of arrays and objects.
pub(crate) const LEVELS: usize = 127;

/// The number of keys of an object among which a repeated key is found. No object of a plan has more keys.
const KEYS: usize = 8;

const TOO_DEEP: &str = "at most 127 levels of arrays and objects";

/// The tokens that may come next in a text.
#[derive(Clone, Copy, PartialEq, Eq)]
enum Due {
    Plan,
    FirstKey,
    NextKey,
    Member,
    FirstItem,
    NextItem,
    MemberEnd,
    ItemEnd,
    Nothing,
}

impl Due {
    /// Returns the words for the tokens that may come next.
    fn expected(self) -> &'static str {
        match self {
            Due::Plan => "an object in `{` and `}`",
            Due::FirstKey => "a key in quotes with `:` behind it, or `}`",
            Due::NextKey => "another key in quotes with `:` behind it: no `,` stands before `}`",
            Due::Member => {
                "a value: a number, a text in quotes, an object, an array, `true`, `false` or `null`"
            }
            Due::FirstItem => "a value or `]`",
            Due::NextItem => { "another value: no `,` stands before `]`, and an array has no keys" }
            Due::MemberEnd => "`,` or `}`",
            Due::ItemEnd => "`,` or `]`",
            Due::Nothing => "nothing after the plan",
        }
    }

    /// Returns whether this token may come next.
    fn accepts(self, token: &Token<'_>) -> bool {
        match token {
            Token::Key(_) => matches!(self, Due::FirstKey | Due::NextKey),
            Token::EndObject => matches!(self, Due::FirstKey | Due::MemberEnd),
            Token::EndArray => matches!(self, Due::FirstItem | Due::ItemEnd),
            Token::Bad => false,
            _ => matches!(
                self,
                Due::Plan | Due::Member | Due::FirstItem | Due::NextItem
            ),
        }
    }
}

/// An array or an object that isn't closed yet.
#[derive(Clone, Copy)]
struct Open {
    is_object: bool,
    /// The number of keys kept of the objects around it.
    keys: usize,
}

/// The result of a walk over a text.
#[derive(Clone, Copy)]
pub(crate) struct Walked {
    /// The offset of the first place at which the text isn't JSON, in bytes from the beginning, and what is expected
    /// there.
    pub fault: Option<(usize, &'static str)>,
    /// The offset of the first key that its object already has.
    pub repeated: Option<usize>,
}

/// The state of a walk over a text.
#[derive(Drop)]
struct Walk<'a> {
    open: Vec<Open>,
    /// The first keys of each open object, from the outermost in.
    keys: Vec<&'a str>,
    due: Due,
    repeated: Option<usize>,
}

/// Returns whether the last byte before an offset that isn't a blank is a comma.
fn is_behind_comma(text: &str, offset: usize) -> bool {
    let before = text.get(..offset).unwrap_or("");
    before.trim_end_matches(BLANKS).ends_with(',')
}

impl<'a> Walk<'a> {
    /// Enters an array or an object.
    fn enter(&mut self, is_object: bool, due: Due) -> Result<(), AllocError> {
        let keys = self.keys.len();
        self.open.push(Open { is_object, keys })?;
        self.due = due;
        Ok(())
    }

    /// Leaves the innermost array or object.
    fn leave(&mut self) {
        if let Some(open) = self.open.pop() {
            self.keys.truncate(open.keys);
        }
    }

    /// Consumes a key of the innermost object. The key begins at `offset`.
    fn take_key(&mut self, key: &'a str, offset: usize) -> Result<(), AllocError> {
        self.due = Due::Member;
        let first = self.open.last().map_or(0, |open| open.keys);
        for seen in self.keys.iter().skip(first) {
            if *seen == key && self.repeated.is_none() {
                self.repeated = Some(offset);
            }
        }
        if self.keys.len().saturating_sub(first) < KEYS {
            self.keys.push(key)?;
        }
        Ok(())
    }

    /// Sets what may come next after a value. `offset` is that of the token after the value.
    fn pass(&mut self, text: &str, offset: usize) {
        let has_comma = is_behind_comma(text, offset);
        self.due = match self.open.last() {
            None => Due::Nothing,
            Some(open) => match (open.is_object, has_comma) {
                (true, true) => Due::NextKey,
                (true, false) => Due::MemberEnd,
                (false, true) => Due::NextItem,
                (false, false) => Due::ItemEnd,
            },
        };
    }

    /// Consumes a token that may come next. The token begins at `offset`, the one after it at `next`.
    fn take(
        &mut self,
        text: &str,
        token: Token<'a>,
        offset: usize,
        next: usize,
    ) -> Result<(), AllocError> {
        match token {
            Token::BeginObject => return self.enter(true, Due::FirstKey),
            Token::BeginArray => return self.enter(false, Due::FirstItem),
            Token::Key(key) => return self.take_key(key, offset),
            Token::EndObject | Token::EndArray => self.leave(),
            _ => {}
        }
        self.pass(text, next);
        Ok(())
    }

    /// Returns the result of a walk that ends with this fault.
    fn ended(&self, fault: Option<(usize, &'static str)>) -> Walked {
        Walked {
            fault,
            repeated: self.repeated,
        }
    }
}

/// Walks over the tokens of a text.
pub(crate) fn walk_over(
    alloc: Global,
    text: &str,
    scratch: &mut Scratch,
) -> Result<Walked, AllocError> {
    let mut reader = Reader::new(text, scratch)?;
    let mut walk = Walk {
        open: Vec::new(alloc),
        keys: Vec::new(alloc),
        due: Due::Plan,
        repeated: None,
    };
    for _ in 0..text.len() {
        let offset = reader.offset();
        let Some(token) = reader.next() else {
            break;
        };
        if !walk.due.accepts(&token) {
            return Ok(walk.ended(Some((offset, walk.due.expected()))));
        }
        if matches!(token, Token::BeginObject | Token::BeginArray) && walk.open.len() >= LEVELS {
            return Ok(walk.ended(Some((offset, TOO_DEEP))));
        }
        walk.take(text, token, offset, reader.offset())?;
    }
    match walk.due {
        Due::Nothing => Ok(walk.ended(None)),
        due => Ok(walk.ended(Some((reader.offset(), due.expected())))),
    }
}
