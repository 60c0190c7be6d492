//! What a turn does to the settings of labels. The functions do nothing: their contracts are the laws.

ghost use Rattle.std.specs.Prelude.{◌≡◌, ◌&&◌, ℕ, Bool, true, false, List, ◌∷◌, Ok};
ghost use Rattle.history_model.specs.Labels.{Label};
ghost use Rattle.history_model.specs.Machine.{State, Event, Set};
ghost use Rattle.history_model.specs.Acceptance.{refusal_in, refusal_stored};
ghost use Rattle.history_model.specs.Step.{set_if, step, run};
ghost use Rattle.history_model.specs.Described.{Described};
ghost use Rattle.history_model.specs.Definitions.{has_sockets};
ghost use Rattle.job_defs.specs.Keys.{def_of};
ghost use Rattle.loaded_jobs.specs.Tables.{Name};
ghost use Rattle.loaded_jobs.specs.Loads.{refusal_outside};
ghost use Rattle.job_table.specs.LoadOfBytes.{load_of_bytes};
ghost use Rattle.launcher.specs.HostTurns.{answer_events};
ghost use Rattle.child_edge.specs.Calls.{ToldCall};

/// Only the first event of a turn sets anything.
#[tactic(auto, using(crate::proofs::StoredSettingsLemmas::turn_settings))]
pub fn answers_set_nothing()
    ensures { (s : State) (input : Event) (names : List Name) (entries : List ToldCall) →
        (run (input ∷ answer_events names entries) s).settings ≡ (step s input).settings }
{}

/// A load that refuses only what the outside refuses sets its label if that was wanted and the store took it, and else nothing.
/// What was not asked counts as true.
#[tactic(auto, using(crate::proofs::StoredSettingsLemmas::load_settings))]
pub fn a_load_sets_what_was_stored()
    ensures { (s : State) (bytes : List ℕ) (d : Described)
        (writes_setting force bind store : Bool) →
        def_of bytes ≡ Ok d →
        refusal_in s (load_of_bytes bytes writes_setting force bind store)
        ≡ refusal_outside d writes_setting bind store →
        (has_sockets d ≡ false → bind ≡ true) → ((writes_setting && bind) ≡ false → store ≡ true) →
        (step s (load_of_bytes bytes writes_setting force bind store)).settings
        ≡ set_if (writes_setting && (bind && store)) d.label false s.settings }
{}

/// A setting that refuses only what the store refuses is made if the store took it, and else nothing is.
#[tactic(auto, using(crate::proofs::StoredSettingsLemmas::set_settings))]
pub fn a_setting_is_made_where_it_was_stored()
    ensures { (s : State) (label : Label) (disabled store : Bool) →
        refusal_in s (Set label disabled store) ≡ refusal_stored true store →
        (step s (Set label disabled store)).settings ≡ set_if store label disabled s.settings }
{}
