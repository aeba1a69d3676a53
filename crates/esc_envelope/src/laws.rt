//! Laws of the definitions.
//!
//! The functions here do nothing. Each has a law as its contract: a caller who needs the law calls
//! it.

ghost use Rattle.std.specs.Prelude.{◌≡◌, ◌↔◌, ◌++◌, ℕ, ℤ, List, All, Ok, Err, Some, IsSome};
ghost use Rattle.esc_bundle.specs.declared.refusal.Refusal.{Refusal};
ghost use Rattle.esc_envelope.specs.DeclaredTables.{IsTable, AreContents, AreDeletes};
ghost use Rattle.esc_envelope.specs.Envelope.{envelope_of};
ghost use Rattle.esc_envelope.specs.EnvelopeFaults.{IsLeastEnvelopeFault};
ghost use Rattle.esc_envelope.specs.EnvelopeValue.{EnvelopeValue};
ghost use Rattle.esc_envelope.specs.Moment.{IsWatermark};
ghost use Rattle.esc_envelope.specs.Watermark.{IsInYears, watermark_of, watermark_text_of};

/// What an envelope that is read declares: each table has its form, and the tables are compatible
/// with one another.
pub fn declared_tables_have_their_forms()
    ensures tables { (text : List ℕ) (e : EnvelopeValue) → envelope_of text ≡ Ok e
        → All IsTable (e.contents ++ e.deletes) }
    ensures contents { (text : List ℕ) (e : EnvelopeValue) → envelope_of text ≡ Ok e
        → AreContents e.contents }
    ensures deletes { (text : List ℕ) (e : EnvelopeValue) → envelope_of text ≡ Ok e
        → AreDeletes e.deletes }
{}

/// `envelope_of` refuses a text exactly with the least of U5 to U7 that applies.
pub fn refusals_are_least()
    ensures { (text : List ℕ) (why : Refusal)
        → (envelope_of text ≡ Err why) ↔ IsLeastEnvelopeFault text why }
{}

/// The texts that `watermark` reads are exactly those of moments.
pub fn watermarks_are_moments()
    ensures { (text : List ℕ) (w : ℤ)
        → (watermark_of text ≡ Some w) ↔ IsWatermark text w }
{}

/// What is printed is read back as the same moment, and every moment of these years has a text.
pub fn printed_watermarks_are_read()
    ensures read { (w : ℤ) (text : List ℕ) → watermark_text_of w ≡ Some text
        → watermark_of text ≡ Some w }
    ensures printed { (w : ℤ) → IsInYears w → IsSome (watermark_text_of w) }
{}
