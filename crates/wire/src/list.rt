//! Lists of messages.

ghost use Rattle.std.specs.Prelude.{◌≡◌, [], ◌∷◌, IfOk};

use crate::message::Message;
use std::alloc::{AllocError, Global};

/// Returns a list of one message. Fails only with `NoMemory`.
pub fn only(alloc: Global, message: Message) -> Result<Vec<Message>, AllocError>
    ensures { IfOk result (λ list. list.items ≡ message ∷ []) }
{
    let mut list = Vec::new(alloc);
    list.push(message)?;
    Ok(list)
}
