//! Which tables a registry has.

ghost use Rattle.std.specs.Prelude.{◌≡◌};
ghost use Rattle.esc_table_files.specs.Layouts.{called};
ghost use Rattle.esc_table_files.specs.Gathering.{has_name};

use esc_envelope::Kind;
use std::marker::Model;

/// The name of a table.
#[derive(Debug, Drop)]
pub struct TableName {
    /// The kind of its objects.
    pub kind: Kind,
    /// The name of the child rows that it has; `None` if it has the parent rows.
    pub child: Option<String>,
}

impl Model for TableName {
    ghost use Rattle.std.specs.Prelude.{string_bytes};
    ghost use Rattle.std.specs.Option.{option_map};
    ghost use Rattle.esc_table_files.specs.Layouts.{TableNameValue};

    ghost Value = { TableNameValue };

    ghost view = { λ t. record { kind = t.kind; child = option_map string_bytes t.child } };
}

impl TableName {
    /// What the table is called: as its child rows, or as its kind.
    pub fn text(&self) -> &str
        ensures { result.now ≡ called self.now }
    {
        match &self.child {
            Some(name) => name.as_str(),
            None => self.kind.name(),
        }
    }

    /// Whether it has the child rows of this name.
    pub(crate) fn is_child(&self, name: &str) -> bool
        ensures { result ≡ has_name name.now self.now.child }
    {
        match &self.child {
            Some(child) => name == child.as_str(),
            None => false,
        }
    }
}
