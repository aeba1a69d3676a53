//! What the definitions say together.
//!
//! The functions here do nothing. Each has a law as its contract: a caller who needs the law calls
//! it.

ghost use Rattle.std.specs.Prelude.{◌≡◌, ◌↔◌, ◌+◌, ◌≤◌, List, ℕ, All, length, Ok, Err};
ghost use Rattle.std.specs.List.Sorted.{IsPermutation, IsSortedBy};
ghost use Rattle.esc_bundle.specs.declared.refusal.Refusal.{Refusal};
ghost use Rattle.esc_envelope.specs.EnvelopeValue.{TableValue};
ghost use Rattle.esc_tables.specs.DepositValue.{DepositValue};
ghost use Rattle.esc_tables.specs.DepositOf.{IsDepositOf, IsRefused};
ghost use Rattle.esc_tables.specs.Reading.{reading, by_name, is_before};
ghost use Rattle.esc_tables.specs.SmallObject.{IsSmallObject};

use esc_bundle::frame_is_exact;
use esc_csv::fields_are_no_longer_than_the_text;
use esc_envelope::declared_tables_have_their_forms;

/// The function `reading` of a body's bytes gives exactly what the relations say: the one deposit
/// that the body is, or the least refusal that applies.
pub fn reading_is_exact()
    ensures deposit { (body : List ℕ) (d : DepositValue)
        → (reading body ≡ Ok d) ↔ IsDepositOf body d }
    ensures refusal { (body : List ℕ) (why : Refusal)
        → (reading body ≡ Err why) ↔ IsRefused body why }
{
    frame_is_exact();
}

/// Each object of a deposit that is read is small: its names have at most 64 bytes, its rows at
/// most 64 cells, no text is longer than a bundle may be, and there are no more child rows than a
/// bundle may have rows (100,000).
pub fn read_objects_are_small()
    ensures { (body : List ℕ) (d : DepositValue) → reading body ≡ Ok d
        → All (λ e. IsSmallObject e.1) d.contents }
{
    frame_is_exact();
    fields_are_no_longer_than_the_text();
    declared_tables_have_their_forms();
}

/// A deposit that is read has at most 100,000 deletes and objects together: no more than its bundle
/// may have rows.
pub fn read_deposits_are_small()
    ensures { (body : List ℕ) (d : DepositValue) → reading body ≡ Ok d
        → length d.deletes + length d.contents ≤ 100_000 }
{}

/// `by_name` returns the same tables in another order, in which no table has a name before that of
/// an earlier one.
pub fn tables_are_in_order()
    ensures same { (tables : List TableValue) → IsPermutation tables (by_name tables) }
    ensures rising { (tables : List TableValue) → IsSortedBy is_before (by_name tables) }
{}
