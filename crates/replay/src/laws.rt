//! What holds of the output of every input. The function does nothing: its contract is the law.
ghost use Rattle.std.specs.Prelude.{◌≡◌, ℕ, List, Some, None};
ghost use Rattle.table_opening.specs.Output.{IsOutput};

/// The lines of an input have one output: whatever text is written for them is the same. If one is written, none is the output of
/// lines that open no machine.
pub fn an_input_has_one_output()
    ensures same { (lines : List (List ℕ)) (one other : List ℕ)
        → IsOutput lines (Some one) → IsOutput lines (Some other) → one ≡ other }
    ensures only { (lines : List (List ℕ)) (text : List ℕ)
        → IsOutput lines (Some text) → IsOutput lines None → ⊥ }
{}
