//! What every definition has that is read, as laws about every text. The functions do nothing: their contracts are the laws.

ghost use Rattle.std.specs.Prelude.{◌≡◌, ℕ, List, Ok, true};
ghost use Rattle.history_model.specs.Labels.{is_label};
ghost use Rattle.history_model.specs.Described.{Described};
ghost use Rattle.job_defs.specs.Keys.{def_of};

/// The label of a definition that is read is one: 1 to 255 bytes, none of them forbidden.
#[tactic(auto, using(crate::proofs::LabelLemmas::label_read))]
pub fn a_definition_has_a_label()
    ensures { (bytes : List ℕ) (described : Described) → def_of bytes ≡ Ok described
        → is_label described.label ≡ true }
{}
