//! How what was seen of a store is shown.

/// How what was seen of a store is shown.
#[derive(Clone, Copy)]
pub enum Form {
    /// A line for each test; the status of strict ones is 1 where anything is told.
    Lines { is_strict: bool },
    /// A page, with the receipts too.
    Page,
}
