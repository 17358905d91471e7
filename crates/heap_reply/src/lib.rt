//! What commands answer, and the texts of it, made on the stack; and the line that tells a word.
#![tactic(auto)]

mod digits;
mod display;
mod reply;
mod short_text;
mod text;
mod word_text;

pub use crate::display::{BoundedAddress, Hexadecimal, flag_number};
pub use crate::reply::{Reply, Shown, Trap};
pub use crate::short_text::ShortText;
pub use crate::text::{put_reply, put_reply_of};
pub use crate::word_text::word_line;
