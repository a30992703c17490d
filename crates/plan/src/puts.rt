//! Writes JSON tokens: keys, ends, whole numbers and lists of them.

ghost use Rattle.std.specs.Prelude.{◌≡◌, IfSome, OnSome, decimal};
ghost use Rattle.json.specs.Token as token;
ghost use Rattle.serde_json.specs.Data.{array, null, string};
ghost use Rattle.refutation.specs.Common.{number_data, numbers_data, pair_data, pairs_data};
ghost use Rattle.plan.specs.Puts.{Puts, PutsMember, PutsToken};

use json::Writer;

/// Writes a key.
pub(crate) fn put_key(writer: &mut Writer, name: &str) -> Option<()>
    ensures { OnSome result (PutsToken (token.key name.now) writer.old writer.new) }
{
    writer.key(name).ok()
}

/// Writes the beginning of an object.
pub(crate) fn open_object(writer: &mut Writer) -> Option<()>
    ensures { OnSome result (PutsToken token.begin_object writer.old writer.new) }
{
    writer.begin_object().ok()
}

/// Writes the end of an object.
pub(crate) fn close_object(writer: &mut Writer) -> Option<()>
    ensures { OnSome result (PutsToken token.end_object writer.old writer.new) }
{
    writer.end_object().ok()
}

/// Writes the beginning of a list.
pub(crate) fn open_array(writer: &mut Writer) -> Option<()>
    ensures { OnSome result (PutsToken token.begin_array writer.old writer.new) }
{
    writer.begin_array().ok()
}

/// Writes the end of a list.
pub(crate) fn close_array(writer: &mut Writer) -> Option<()>
    ensures { OnSome result (PutsToken token.end_array writer.old writer.new) }
{
    writer.end_array().ok()
}

/// Writes a null.
pub(crate) fn put_null(writer: &mut Writer) -> Option<()>
    ensures { OnSome result (Puts null writer.old writer.new) }
{
    writer.null().ok()
}

/// Writes a text.
pub(crate) fn put_text(writer: &mut Writer, text: &str) -> Option<()>
    ensures { OnSome result (Puts (string text.now) writer.old writer.new) }
{
    writer.string(text).ok()
}

/// Returns the text of a number, if it has one digit.
fn digit_text(number: u64) -> Option<&'static str>
    ensures { IfSome result (λ s. s.now ≡ decimal number) }
{
    match number {
        0 => Some("0"),
        1 => Some("1"),
        2 => Some("2"),
        3 => Some("3"),
        4 => Some("4"),
        5 => Some("5"),
        6 => Some("6"),
        7 => Some("7"),
        8 => Some("8"),
        9 => Some("9"),
        _ => None,
    }
}

/// Writes a whole number.
pub(crate) fn put_number(writer: &mut Writer, number: u64) -> Option<()>
    ensures { OnSome result (Puts (number_data number) writer.old writer.new) }
{
    match digit_text(number) {
        Some(text) => writer.number(text).ok(),
        None => writer.u64(number).ok(),
    }
}

/// Writes a key and a text.
pub(crate) fn put_text_at(writer: &mut Writer, name: &str, text: &str) -> Option<()>
    ensures { OnSome result (PutsMember name.now (string text.now) writer.old writer.new) }
{
    put_key(writer, name)?;
    put_text(writer, text)
}

/// Writes a key and a whole number.
pub(crate) fn put_number_at(writer: &mut Writer, name: &str, number: u64) -> Option<()>
    ensures { OnSome result (PutsMember name.now (number_data number) writer.old writer.new) }
{
    put_key(writer, name)?;
    put_number(writer, number)
}

/// Writes a list of whole numbers.
pub(crate) fn put_numbers(writer: &mut Writer, numbers: &[u8]) -> Option<()>
    ensures { OnSome result (Puts (array (numbers_data numbers.now)) writer.old writer.new) }
{
    open_array(writer)?;
    for number in numbers {
        put_number(writer, u64::from(*number))?;
    }
    close_array(writer)
}

/// Writes two whole numbers.
fn put_pair(writer: &mut Writer, pair: (u8, u8)) -> Option<()>
    ensures { OnSome result (Puts (pair_data pair) writer.old writer.new) }
{
    open_array(writer)?;
    put_number(writer, u64::from(pair.0))?;
    put_number(writer, u64::from(pair.1))?;
    close_array(writer)
}

/// Writes a list of pairs of whole numbers.
pub(crate) fn put_pairs(writer: &mut Writer, pairs: &[(u8, u8)]) -> Option<()>
    ensures { OnSome result (Puts (array (pairs_data pairs.now)) writer.old writer.new) }
{
    open_array(writer)?;
    for pair in pairs {
        put_pair(writer, *pair)?;
    }
    close_array(writer)
}
