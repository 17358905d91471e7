//! The law of given lines.

ghost use Rattle.std.specs.Prelude.{ℕ, List};
ghost use Rattle.log_text.specs.declared.log.Given.{Given};
ghost use Rattle.given_state.specs.declared.fault.Lack.{Lack};
ghost use Rattle.given_state.specs.Given.{AreSafe, IsFirstFlaw};

/// Lines that are as they must be have no flaw.
pub fn no_flaw_law()
    ensures { (base pages : ℕ) (lines : List (ℕ × Given)) (line : ℕ) (lack : Lack) →
        AreSafe base pages lines → IsFirstFlaw base pages lines line lack → ⊥ }
{}
