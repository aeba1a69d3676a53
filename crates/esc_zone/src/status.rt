//! The statuses of a domain, and which of them keep it out of the zone.

ghost use Rattle.std.specs.Prelude.{◌≡◌, ◌||◌, codes};
ghost use Rattle.esc_zone.specs.Statuses.{has_status, has_rgp, hold_of};

use crate::field::has_child_word;
use esc_tables::Row;

/// What keeps a domain out of the zone (RFC 5731, section 2.3: a held one must not be published;
/// RFC 3915 says nothing of the zone, and the others are this project's profile).
#[derive(Clone, Copy, Debug, PartialEq, Eq)]
pub enum Hold {
    /// `clientHold` or `serverHold`.
    Held,
    PendingCreate,
    /// `redemptionPeriod`.
    Redemption,
    PendingRestore,
    PendingDelete,
    Inactive,
}

fn has_status(rows: &[Row], word: &str) -> bool
    ensures { result ≡ has_status word.now rows.now }
{
    has_child_word(rows, "domainStatuses", "status", word)
}

/// Whether a domain with these child rows has a status of the grace periods.
pub(crate) fn has_rgp(rows: &[Row], word: &str) -> bool
    ensures { result ≡ has_rgp word.now rows.now }
{
    has_child_word(rows, "domainStatuses", "rgpStatus", word)
}

/// Whether a domain with these child rows is held.
pub(crate) fn is_held(rows: &[Row]) -> bool
    ensures { result ≡ (has_status (codes "clientHold") rows.now
        || has_status (codes "serverHold") rows.now) }
{
    has_status(rows, "clientHold") || has_status(rows, "serverHold")
}

/// Whether a domain with these child rows has `pendingDelete` as a status of EPP.
pub(crate) fn is_pending_delete_of_epp(rows: &[Row]) -> bool
    ensures { result ≡ has_status (codes "pendingDelete") rows.now }
{
    has_status(rows, "pendingDelete")
}

// Whether a domain with these child rows is about to be deleted, by either status.
fn is_pending_delete(rows: &[Row]) -> bool
    ensures { result ≡ (has_rgp (codes "pendingDelete") rows.now
        || has_status (codes "pendingDelete") rows.now) }
{
    has_rgp(rows, "pendingDelete") || is_pending_delete_of_epp(rows)
}

/// What keeps a domain with these child rows out of the zone, if anything does.
pub fn hold_of(rows: &[Row]) -> Option<Hold>
    ensures { result ≡ hold_of rows.now }
{
    if is_held(rows) {
        return Some(Hold::Held);
    }
    if has_status(rows, "pendingCreate") {
        return Some(Hold::PendingCreate);
    }
    if has_rgp(rows, "redemptionPeriod") {
        return Some(Hold::Redemption);
    }
    if has_rgp(rows, "pendingRestore") {
        return Some(Hold::PendingRestore);
    }
    if is_pending_delete(rows) {
        return Some(Hold::PendingDelete);
    }
    if has_status(rows, "inactive") {
        return Some(Hold::Inactive);
    }
    None
}
