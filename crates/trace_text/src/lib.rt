//! The grammar of traces: which text is which trace, and what is wrong with any other text.
#![tactic(auto)]

mod fault;
mod laws;
mod line;
mod marked;
mod operand;
mod text;
mod trace;
mod words;

pub use crate::fault::{LineFault, TraceFault, fault_line};
pub use crate::laws::{command_grammar_law, trace_grammar_law, word_cut_law};
pub use crate::line::command;
pub use crate::marked::Line;
pub use crate::operand::{data, hexadecimal_digit, number, operand_number, register};
pub use crate::text::{LONGEST_TEXT, Opening, parse, read_heap};
pub use crate::trace::{Command, Trace};
pub use crate::words::{no_word, one_word, split_line, split_name, three_words, two_words};
