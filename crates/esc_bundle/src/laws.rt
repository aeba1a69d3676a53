//! What holds of all texts and all lists of sections, by the definitions alone.
//!
//! The functions here do nothing. Each has a law as its contract: a caller who needs the law calls
//! it.

ghost use Rattle.std.specs.Prelude.{◌≡◌, ◌⊎◌, ◌↔◌, ◌++◌, ◌∷◌, List, [], ℕ, codes, Ok, Err};
ghost use Rattle.esc_bundle.specs.declared.refusal.Refusal.{Refusal};
ghost use Rattle.esc_bundle.specs.declared.refusal.Refusal.TheVariants.{BrokenFrame, WrongName};
ghost use Rattle.esc_bundle.specs.declared.refusal.Refusal.TheVariants.{RepeatedName, OverLimit};
ghost use Rattle.esc_bundle.specs.Bundle.{Named, IsBundle};
ghost use Rattle.esc_bundle.specs.Reading.{IsFault};
ghost use Rattle.esc_bundle.specs.Frame.{frame};
ghost use Rattle.esc_bundle.specs.Writing.{bundle_of, IsUnwritten};

/// No bundle is a proper beginning of another.
pub fn no_bundle_begins_another()
    ensures { (body more : List ℕ) (ss ts : List Named) →
        IsBundle body ss → IsBundle (body ++ more) ts → more ≡ [] }
{}

/// A text is a bundle of one list of sections, or it has one fault: one of the two, and never both.
pub fn each_text_has_one_reading()
    ensures either { (body : List ℕ) →
        ((ss : List Named) × IsBundle body ss) ⊎ ((why : Refusal) × IsFault body why) }
    ensures never_both { (body : List ℕ) (ss : List Named) (why : Refusal) →
        IsBundle body ss → IsFault body why → ⊥ }
    ensures one_list { (body : List ℕ) (ss ts : List Named) →
        IsBundle body ss → IsBundle body ts → ss ≡ ts }
    ensures one_fault { (body : List ℕ) (why other : Refusal) → IsFault body why
        → IsFault body other → why ≡ other }
{}

/// The function `frame` returns exactly what the relations `IsBundle` and `IsFault` say.
pub fn frame_is_exact()
    ensures bundle { (body : List ℕ) (ss : List Named)
        → (frame body ≡ Ok ss) ↔ IsBundle body ss }
    ensures fault { (body : List ℕ) (why : Refusal) → (frame body ≡ Err why) ↔ IsFault body why }
{}

/// The function `bundle_of` of a list of sections returns its bundle, or the fault for which no
/// bundle has these sections.
pub fn bundle_of_is_exact()
    ensures bundle { (ss : List Named) (body : List ℕ) →
        (bundle_of ss ≡ Ok body) ↔ IsBundle body ss }
    ensures fault { (ss : List Named) (why : Refusal) →
        bundle_of ss ≡ Err why → (body : List ℕ) → IsBundle body ss → ⊥ }
    ensures unwritten { (ss : List Named) (why : Refusal)
        → (bundle_of ss ≡ Err why) ↔ IsUnwritten ss why }
{}

/// The definition at some texts: the shortest bundle, and one text for each kind of fault.
pub fn worked_texts()
    ensures shortest { frame (codes "escrow-bundle 1\nenvelope.json 2\n{}\nend\n")
        ≡ Ok (record { name = codes "envelope.json"; bytes = codes "{}" } ∷ []) }
    ensures two { frame (codes "escrow-bundle 1\nenvelope.json 2\n{}\nc.csv 6\nC1,R1\n\nend\n")
        ≡ Ok (record { name = codes "envelope.json"; bytes = codes "{}" }
        ∷ record { name = codes "c.csv"; bytes = codes "C1,R1\n" } ∷ []) }
    ensures empty { frame [] ≡ Err BrokenFrame }
    ensures no_section { frame (codes "escrow-bundle 1\nend\n") ≡ Err BrokenFrame }
    ensures no_end { frame (codes "escrow-bundle 1\nenvelope.json 2\n{}\n") ≡ Err BrokenFrame }
    ensures bytes_after_end { frame (codes "escrow-bundle 1\nenvelope.json 2\n{}\nend\n\n")
        ≡ Err BrokenFrame }
    ensures leading_zero { frame (codes "escrow-bundle 1\nenvelope.json 02\n{}\nend\n")
        ≡ Err BrokenFrame }
    ensures other_first { frame (codes "escrow-bundle 1\nc.csv 2\n{}\nend\n") ≡ Err BrokenFrame }
    ensures wrong_name { frame (codes "escrow-bundle 1\nEnvelope.json 2\n{}\nend\n")
        ≡ Err WrongName }
    ensures zero_before_name { frame (codes "escrow-bundle 1\nEnvelope.json 02\n{}\nend\n")
        ≡ Err BrokenFrame }
    ensures repeated { frame
        (codes "escrow-bundle 1\nenvelope.json 2\n{}\nenvelope.json 2\n{}\nend\n")
        ≡ Err RepeatedName }
    ensures too_long { frame (codes "escrow-bundle 1\nenvelope.json 16777217\n") ≡ Err OverLimit }
    ensures limit_before_first { frame (codes "escrow-bundle 1\nc.csv 16777217\n") ≡ Err OverLimit }
    ensures nothing_to_write { bundle_of [] ≡ Err BrokenFrame }
{}
