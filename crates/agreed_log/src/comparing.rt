//! Answers that aren't read, but compared with the text of a reply.

ghost use Rattle.std.specs.Prelude.{◌≡◌, Some, true};
ghost use Rattle.trace_text.specs.Lines.{words_of};
ghost use Rattle.log_text.specs.ReplyText.{FitsReply, reply_in};

use heap_reply::{Reply, ShortText, put_reply_of};
use log_text::reply_grammar_law;
use trace_text::Line;

// Tells what the type of a reply says of its numbers, for the law `answers`. Nothing is done.
#[inline(always)]
fn fit_reply(reply: Reply)
    ensures { FitsReply reply }
{
    let _ = reply;
}

/// Whether a line is a blank and just the text of a reply, which is made in `text`.
#[inline(always)]
pub fn says_reply(line: &Line<'_>, reply: &Reply, text: &mut ShortText) -> bool
    ensures { result ≡ true → reply_in (words_of line.now) ≡ Some reply.now }
{
    reply_grammar_law();
    fit_reply(*reply);
    text.clear();
    put_reply_of(text, reply);
    text.put(" ");
    line.bytes() == text.as_bytes()
}
