//! The laws: which words are which answer.

ghost use Rattle.std.specs.Prelude.{◌≡◌, ◌↔◌, ℕ, List, Some};
ghost use Rattle.heap_reply.specs.declared.reply.Reply.{Reply as TheReply};
ghost use Rattle.revoker_steps.specs.declared.command.RevokerReply.{RevokerReply as TheRevokerReply};
ghost use Rattle.log_text.specs.ReplyText.{IsReplyText, reply_in};
ghost use Rattle.log_text.specs.RevokerLines.{IsRevokerReplyText, revoker_reply_in};

/// Words are read as an answer exactly where a report writes this answer so, and one answer at most is written so; and the same of
/// answers to a revoker's commands.
pub fn reply_grammar_law()
    ensures read { (words : List (List ℕ)) (answer : TheReply) →
        (reply_in words ≡ Some answer) ↔ IsReplyText words answer }
    ensures one { (words : List (List ℕ)) (answer other : TheReply) →
        IsReplyText words answer → IsReplyText words other → answer ≡ other }
    ensures revoker_read { (words : List (List ℕ)) (answer : TheRevokerReply) →
        (revoker_reply_in words ≡ Some answer) ↔ IsRevokerReplyText words answer }
    ensures revoker_one { (words : List (List ℕ)) (answer other : TheRevokerReply) →
        IsRevokerReplyText words answer → IsRevokerReplyText words other → answer ≡ other }
{}
