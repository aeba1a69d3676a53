//! The fields that are known by their names in a heading.

ghost use Rattle.std.specs.Prelude.{◌≡◌, ◌&&◌, option_map};
ghost use Rattle.std.specs.List.{find};
ghost use Rattle.std.specs.Str.{bytes_eq};
ghost use Rattle.esc_pack.specs.KnownFields.{model_name, is_field_of, known_field, desk_field};
ghost use Rattle.esc_pack.specs.KnownFields.{names_field};

/// A field by which the desk finds links, statuses or dates. In the heading of a file it may have
/// the name that the CSV model gives it (RFC 9022, section 4.6.2.2).
#[derive(Clone, Copy, Debug, PartialEq, Eq)]
pub enum KnownField {
    ClId,
    Registrant,
    IdnTableId,
    CrDate,
    ExDate,
    Status,
    ContactId,
    HostName,
}

impl KnownField {
    ghost use Rattle.std.specs.Prelude.{◌≡◌};
    ghost use Rattle.esc_pack.specs.KnownFields.{model_name, desk_name, is_field_of};

    /// All of them.
    pub const ALL: [KnownField; 8] = [
        KnownField::ClId,
        KnownField::Registrant,
        KnownField::IdnTableId,
        KnownField::CrDate,
        KnownField::ExDate,
        KnownField::Status,
        KnownField::ContactId,
        KnownField::HostName,
    ];

    /// Its name in the CSV model.
    pub fn model_name(self) -> &'static str
        ensures { result.now ≡ model_name self }
    {
        match self {
            KnownField::ClId => "fClID",
            KnownField::Registrant => "fRegistrant",
            KnownField::IdnTableId => "fIdnTableId",
            KnownField::CrDate => "fCrDate",
            KnownField::ExDate => "fExDate",
            KnownField::Status => "fStatus",
            KnownField::ContactId => "fId",
            KnownField::HostName => "fHostName",
        }
    }

    /// The desk's name.
    pub fn desk_name(self) -> &'static str
        ensures { result.now ≡ desk_name self }
    {
        match self {
            KnownField::ClId => "clID",
            KnownField::Registrant => "registrant",
            KnownField::IdnTableId => "idnTableId",
            KnownField::CrDate => "crDate",
            KnownField::ExDate => "exDate",
            KnownField::Status => "status",
            KnownField::ContactId => "contactId",
            KnownField::HostName => "hostName",
        }
    }

    /// Whether a table of this name has it under its name in the CSV model.
    pub fn is_in(self, table: &str) -> bool
        ensures { result ≡ is_field_of self table.now }
    {
        match self {
            KnownField::ContactId => table == "domainContacts",
            KnownField::HostName => table == "domainNs",
            _ => true,
        }
    }
}

// The first of these fields that a table has under this name.
fn first_named<'a>(known: &'a [KnownField], table: &str, name: &[u8]) -> Option<&'a KnownField>
    ensures { option_map (λ k. k.now) result
        ≡ find (λ k. is_field_of k table.now && bytes_eq (model_name k) name.now) known.now }
{
    known.iter().find(|field| field.is_in(table) && field.model_name().as_bytes() == name)
}

// The field that a name in a heading of a table stands for, if any.
#[tactic(auto, unfolding(crate::specs::KnownFields::known_fields))]
fn known_field(table: &str, name: &[u8]) -> Option<KnownField>
    ensures { result ≡ known_field table.now name.now }
{
    first_named(&KnownField::ALL, table, name).copied()
}

/// The desk's name of what a heading of a table names; other names stay as they are.
pub(crate) fn desk_field<'a>(table: &str, name: &'a [u8]) -> &'a [u8]
    ensures { result.now ≡ desk_field table.now name.now }
{
    match known_field(table, name) {
        Some(field) => field.desk_name().as_bytes(),
        None => name,
    }
}

/// The same of a name that is text.
pub(crate) fn desk_text<'a>(table: &str, name: &'a str) -> &'a str
    ensures { result.now ≡ desk_field table.now name.now }
{
    match known_field(table, name.as_bytes()) {
        Some(field) => field.desk_name(),
        None => name,
    }
}

/// Whether a name in a heading of a table is that of a declared field, or stands for it.
pub(crate) fn is_named(table: &str, name: &[u8], field: &[u8]) -> bool
    ensures { result ≡ names_field table.now (name.now, field.now) }
{
    name == field || desk_field(table, name) == field
}
