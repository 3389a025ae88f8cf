//! Laws on the faults of a text.

ghost use Rattle.std.specs.Prelude.{◌≡◌, ℕ, List};
ghost use Rattle.configuration.specs.{Document.{TextReadsAsValidConfig, IsLeastTextFault}, declared.Config.{Config}, declared.FaultKind.{FaultKind}};

/// A text has one least kind of fault at most.
pub fn law_least_fault_kind_is_unique()
    ensures { (text : List ℕ) (one other : FaultKind) → IsLeastTextFault text one → IsLeastTextFault text other
        → one ≡ other }
{}

/// A text from which a configuration is read has no fault.
pub fn law_read_text_has_no_fault()
    ensures { (text : List ℕ) (c : Config) (kind : FaultKind) → TextReadsAsValidConfig text c
        → IsLeastTextFault text kind → ⊥ }
{}
