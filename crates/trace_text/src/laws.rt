//! The laws: the grammar is how a text is read, and where words are cut.

ghost use Rattle.std.specs.Prelude.{◌≡◌, ◌≢◌, ◌↔◌, ℕ, List, ◌∷◌, ◌++◌, Ok, Err, None, Some};
ghost use Rattle.std.specs.List.{AllByRecursion};
ghost use Rattle.trace_text.specs.declared.trace.Command.{Command as TheCommand};
ghost use Rattle.trace_text.specs.declared.fault.LineFault.{LineFault as TheLineFault};
ghost use Rattle.trace_text.specs.declared.fault.TraceFault.{TraceFault as TheTraceFault};
ghost use Rattle.trace_text.specs.Grammar.{HasFault, IsCommand, IsFaulty, IsTrace};
ghost use Rattle.trace_text.specs.Lines.{split_at_first};
ghost use Rattle.trace_text.specs.Reading.{Script, command_of, trace_of};

/// The words of a line are read as a command exactly where they are it, and else their fault is read.
pub fn command_grammar_law()
    ensures command { (words : List (List ℕ)) (command : TheCommand) →
        (command_of words ≡ Ok command) ↔ IsCommand words command }
    ensures fault { (name : List ℕ) (words : List (List ℕ)) (fault : TheLineFault) →
        (command_of (name ∷ words) ≡ Err fault) ↔ HasFault (name ∷ words) fault }
{}

/// A text is read as a trace exactly where it is it, and else its fault is read.
pub fn trace_grammar_law()
    ensures trace { (text : List ℕ) (script : Script) →
        (trace_of text ≡ Ok script) ↔ IsTrace text script }
    ensures fault { (text : List ℕ) (fault : TheTraceFault) →
        (trace_of text ≡ Err fault) ↔ IsFaulty text fault }
{}

/// Words are cut at the first that is this one.
pub fn word_cut_law()
    ensures parts { (word : List ℕ) (words before after : List (List ℕ)) →
        (split_at_first word words ≡ Some (before, after)) ↔
        ((words ≡ before ++ word ∷ after) × AllByRecursion (λ other. other ≢ word) before) }
    ensures none { (word : List ℕ) (words : List (List ℕ)) →
        (split_at_first word words ≡ None) ↔ AllByRecursion (λ other. other ≢ word) words }
{}
