//! The tables that a deposit declares.

use crate::kind::Kind;
use std::marker::Model;

/// A table of a deposit, as its envelope declares it (this project's profile). Each field of this
/// struct has the form that is stated at it, and the key is one of the table's fields; whoever
/// makes a `Table` proves it (`IsTable`).
#[derive(Debug, Drop)]
pub struct Table {
    /// 1 to 64 of `A-Z a-z 0-9 _`.
    pub name: String,
    /// The kind of the objects that its rows belong to.
    pub kind: Kind,
    /// Whether it is a parent table, whose rows are the objects themselves; else it is a child
    /// table.
    pub parent: bool,
    /// The index of the key field among the fields, from 0.
    pub key: usize,
    /// The names of the fields in order: 1 to 64 of them, none twice, each of the form of an id.
    pub fields: Vec<String>,
    /// The name of the section that has its rows, as CSV.
    pub file: String,
}

impl Model for Table {
    ghost use Rattle.std.specs.Prelude.{map, string_bytes};
    ghost use Rattle.esc_envelope.specs.EnvelopeValue.{TableValue};
    ghost use Rattle.esc_envelope.specs.DeclaredTables.{IsTable};

    ghost Value = { TableValue };

    ghost view = { λ t. record {
      name = string_bytes t.name;
      kind = t.kind;
      parent = t.parent;
      key = t.key;
      fields = map string_bytes t.fields.items;
      file = string_bytes t.file;
    } };

    ghost invariant = { λ t. IsTable (record {
      name = string_bytes t.name;
      kind = t.kind;
      parent = t.parent;
      key = t.key;
      fields = map string_bytes t.fields.items;
      file = string_bytes t.file;
    }) };
}
