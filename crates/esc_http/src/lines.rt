//! The lines of an export, one object at a time.

ghost use Rattle.std.specs.Prelude.{◌≡◌, ℕ, List, ◌++◌, IfOk, IfErr, OnOk, OnErr};
ghost use Rattle.esc_apply.specs.ObjectStreams.{Entry};
ghost use Rattle.esc_check.specs.Export.{export_text};
ghost use Rattle.esc_store.specs.Faults.{IsFailure};
ghost use Rattle.esc_http.specs.Exports.{HandsOn, Stops, IsCut, FailsOr, entries_of};

use crate::outbox::{Outbox, add};
use crate::serve_fault::ServeFault;
use esc_apply::Objects;
use esc_check::{ExportFault, write_export};
use esc_desk::StoreFault;
use esc_envelope::Kind;
use esc_request::Sink;
use esc_tables::{Key, Object};
use std::alloc::Global;

/// Sends the export of a kind: the heading, and then the lines of each object as it comes. What is
/// sent last waits in the outbox. It allocates for the lines of one object at a time.
pub(crate) fn send_lines<O: Objects<Error = StoreFault>, W: Sink>(
    alloc: Global,
    objects: &mut O,
    kind: Kind,
    outbox: &mut Outbox,
    sink: &mut W,
) -> Result<(), ServeFault>
    ensures follows { O.follows objects.old objects.new }
    ensures ok { OnOk result ((text : List ℕ) × HandsOn (W.contents sink.old)
        (W.contents sink.new) outbox.old outbox.new text
        × (O.is_honest objects.new → (es : List Entry) → O.lists objects.old es
        → text ≡ export_text kind es)) }
    ensures err { OnErr result ((taken : List ℕ) × Stops (W.contents sink.old)
        (W.contents sink.new) outbox.old outbox.new taken
        × (O.is_honest objects.new → (es : List Entry) → O.lists objects.old es
        → (rest : List ℕ) × (export_text kind es ≡ taken ++ rest))) }
    ensures cause { IfErr result (IsCut (FailsOr O.fails) (W.failed sink.new)) }
{
    let heading = export_of_one(alloc, None, kind)?;
    add(outbox, sink, &heading)?;
    while let Some(entry) = objects.next()? {
        let text = export_of_one(alloc, Some(entry), kind)?;
        add(outbox, sink, &text[heading.len()..])?;
    }
    Ok(())
}

// The export of one object, or of none: that is the heading alone.
fn export_of_one(
    alloc: Global,
    entry: Option<(Key, Object)>,
    kind: Kind,
) -> Result<Vec<u8>, StoreFault>
    ensures text { IfOk result (λ text. text.items ≡ export_text kind (entries_of entry)) }
    ensures cause { IfErr result IsFailure }
{
    let mut text = Vec::new(alloc);
    match write_export(alloc, &mut text, &mut One { entry }, kind) {
        Ok(()) => Ok(text),
        Err(ExportFault::Source(fault)) => Err(fault),
        Err(ExportFault::Output(_) | ExportFault::NoMemory) => Err(StoreFault::NoMemory),
    }
}

// At most one object. It never fails.
#[derive(Drop)]
struct One {
    entry: Option<(Key, Object)>,
}

impl Objects for One {
    ghost use Rattle.std.specs.Prelude.{◌≡◌, length};
    ghost use Rattle.esc_apply.specs.ObjectStreams.{InOrder};
    ghost use Rattle.esc_store.specs.Faults.{IsFailure};
    ghost use Rattle.esc_http.specs.Exports.{entries_of};

    type Error = StoreFault;

    ghost lists = { λ one es. (es ≡ entries_of one.entry) × InOrder es };

    ghost bound = { λ one. length (entries_of one.entry) };

    ghost has_failed = { λ one. ⊥ };

    ghost fails = { λ fault. IsFailure fault };

    ghost is_honest = { λ one. Unit {0} };

    ghost follows = { λ a b. Unit {0} };

    fn next(&mut self) -> Result<Option<(Key, Object)>, StoreFault> {
        Ok(self.entry.take())
    }

    ghost in_order = { λ one es listed. listed.1 };

    ghost stays = { λ one. tt };

    ghost goes_on = { λ a b c p q. tt };

    ghost was_honest = { λ a b p honest. tt };
}
