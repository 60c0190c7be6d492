//! What holds of every clock and every step of it. The functions do nothing: their contracts are the laws.
ghost use Rattle.std.specs.Prelude.{◌≡◌, ◌≢◌, ◌<◌, ◌%◌, ◌⊎◌, ℕ, ℤ, pos, true, ◌+ℤ◌, ◌≤ℤ◌, ◌<ℤ◌, neg_ℤ, List, [], ◌∷◌, map, Contains};
ghost use Rattle.history_model.specs.Calendar.{IsCrossed, crossed, matches, calendar_fires};
ghost use Rattle.history_model.specs.declared.Entry.{Entry};
ghost use Rattle.calendar_due.specs.Minute.{shown_minute, IsCivil};
ghost use Rattle.calendar_due.specs.Offsets.{Offsets, shown_by};
ghost use Rattle.history_model.specs.declared.CivilMinute.{CivilMinute};
ghost use Rattle.calendar_due.specs.Zone.{IsOfRule, IsOfTable};
ghost use Rattle.calendar_due.specs.Changes.{IsChange, IsSkipped, IsRepeated, AreShowings, start_of};

/// A civil minute that a clock shows, up to the greatest second and offset, is one of the calendar. Its date and time
/// count up to the second at which the clock began to show it: the clock is less than a minute past it.
pub fn a_civil_minute_tells_its_second()
    ensures civil { (shown : ℤ) → neg_ℤ (pos 93_599) ≤ℤ shown → shown ≤ℤ pos 250_000_093_599 →
        IsCivil (shown_minute shown) }
    ensures begun { (shown : ℤ) → neg_ℤ (pos 93_599) ≤ℤ shown →
        start_of (shown_minute shown) ≤ℤ shown }
    ensures within { (shown : ℤ) → neg_ℤ (pos 93_599) ≤ℤ shown →
        shown <ℤ (start_of (shown_minute shown) +ℤ pos 60) }
{}

/// A text is one rule only: whatever zone is made of it, its clock is the same.
pub fn a_text_has_one_clock()
    ensures { (text : List ℕ) (one other : Offsets) → IsOfRule text one → IsOfRule text other →
        one ≡ other }
{}

/// A zone file is one table only: whatever zone is made of it, its clock is the same.
pub fn a_file_has_one_clock()
    ensures { (bytes : List ℕ) (one other : Offsets) → IsOfTable bytes one → IsOfTable bytes other →
        one ≡ other }
{}

/// A civil minute in a gap is shown at no second, so no step of the clock crosses it.
pub fn a_minute_in_a_gap_never_fires()
    ensures shown { (ahead : Offsets) (change : ℕ) (before after : ℤ) (at : CivilMinute) →
        IsChange ahead change before after → IsSkipped change before after at →
        (m : ℕ) → shown_by ahead m ≢ at }
    ensures crossed { (ahead : Offsets) (change : ℕ) (before after : ℤ) (at : CivilMinute) →
        IsChange ahead change before after → IsSkipped change before after at →
        (previous now : ℕ) → ¬ Contains (map (shown_by ahead) (crossed previous now)) at }
{}

/// A civil minute in a DST overlap is shown from two seconds on, and at no third whole minute. An entry that matches it fires if
/// a step of the clock crosses the first, and again if one crosses the second.
pub fn a_minute_in_a_fold_fires_twice()
    ensures two { (ahead : Offsets) (change first second : ℕ) (before after : ℤ)
        (at : CivilMinute) →
        IsChange ahead change before after → IsRepeated change before after at →
        AreShowings first second before after at →
        (first < second) × (shown_by ahead first ≡ at) × (shown_by ahead second ≡ at) }
    ensures only { (ahead : Offsets) (change first second : ℕ) (before after : ℤ)
        (at : CivilMinute) →
        IsChange ahead change before after → IsRepeated change before after at →
        AreShowings first second before after at →
        first % 60 ≡ 0 → second % 60 ≡ 0 →
        (m : ℕ) → m % 60 ≡ 0 → shown_by ahead m ≡ at → (m ≡ first) ⊎ (m ≡ second) }
    ensures fires { (ahead : Offsets) (change first second : ℕ) (before after : ℤ)
        (at : CivilMinute) →
        IsChange ahead change before after → IsRepeated change before after at →
        AreShowings first second before after at →
        (entry : Entry) (previous now : ℕ) → matches entry at ≡ true →
        IsCrossed previous now first ⊎ IsCrossed previous now second →
        calendar_fires (shown_by ahead) (entry ∷ []) previous now ≡ true }
{}
