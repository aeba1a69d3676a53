//! The tables that are known by the names of files.

ghost use Rattle.std.specs.Prelude.{◌≡◌};
ghost use Rattle.esc_pack.specs.Describing.{is_file_of};

use esc_envelope::Kind;

/// A table that an agent's file is known to have by its name: the names of files are those of the
/// CSV model (RFC 9022, section 4.6), the names of tables this project's profile.
#[derive(Clone, Copy, Debug, PartialEq, Eq)]
pub enum KnownTable {
    RegistrarDeletes,
    ContactDeletes,
    HostDeletes,
    DomainDeletes,
    IdnLanguageDeletes,
    NndnDeletes,
    Registrar,
    Contact,
    ContactPostal,
    ContactStatuses,
    ContactTransfer,
    ContactDisclose,
    Host,
    HostAddresses,
    HostStatuses,
    Domain,
    DomainContacts,
    DomainNameServers,
    DomainNameServersAddresses,
    DomainStatuses,
    DomainTransfer,
    Dnssec,
    IdnLanguage,
    Nndn,
}

impl KnownTable {
    ghost use Rattle.std.specs.Prelude.{◌≡◌};
    ghost use Rattle.esc_pack.specs.KnownTables.{file_stem, table_name, table_kind, is_of_deletes};
    ghost use Rattle.esc_pack.specs.KnownTables.{is_parent, is_key};

    /// Those of contents. A file's name stands for one of all at most.
    pub const CONTENTS: [KnownTable; 18] = [
        KnownTable::Registrar,
        KnownTable::Contact,
        KnownTable::ContactPostal,
        KnownTable::ContactStatuses,
        KnownTable::ContactTransfer,
        KnownTable::ContactDisclose,
        KnownTable::Host,
        KnownTable::HostAddresses,
        KnownTable::HostStatuses,
        KnownTable::Domain,
        KnownTable::DomainContacts,
        KnownTable::DomainNameServers,
        KnownTable::DomainNameServersAddresses,
        KnownTable::DomainStatuses,
        KnownTable::DomainTransfer,
        KnownTable::Dnssec,
        KnownTable::IdnLanguage,
        KnownTable::Nndn,
    ];

    /// Those of deletes.
    pub const DELETES: [KnownTable; 6] = [
        KnownTable::RegistrarDeletes,
        KnownTable::ContactDeletes,
        KnownTable::HostDeletes,
        KnownTable::DomainDeletes,
        KnownTable::IdnLanguageDeletes,
        KnownTable::NndnDeletes,
    ];

    /// The stem of its files' names: what they begin with, before a dash or a dot.
    pub fn file_stem(self) -> &'static str
        ensures { result.now ≡ file_stem self }
    {
        match self {
            KnownTable::RegistrarDeletes => "registrar-delete",
            KnownTable::ContactDeletes => "contact-delete",
            KnownTable::HostDeletes => "host-delete",
            KnownTable::DomainDeletes => "domain-delete",
            KnownTable::IdnLanguageDeletes => "idnLanguage-delete",
            KnownTable::NndnDeletes => "NNDN-delete",
            KnownTable::Registrar => "registrar",
            KnownTable::Contact => "contact",
            KnownTable::ContactPostal => "contactPostal",
            KnownTable::ContactStatuses => "contactStatuses",
            KnownTable::ContactTransfer => "contactTransfer",
            KnownTable::ContactDisclose => "contactDisclose",
            KnownTable::Host => "host",
            KnownTable::HostAddresses => "hostAddresses",
            KnownTable::HostStatuses => "hostStatuses",
            KnownTable::Domain => "domain",
            KnownTable::DomainContacts => "domainContacts",
            KnownTable::DomainNameServers => "domainNameServers",
            KnownTable::DomainNameServersAddresses => "domainNameServersAddresses",
            KnownTable::DomainStatuses => "domainStatuses",
            KnownTable::DomainTransfer => "domainTransfer",
            KnownTable::Dnssec => "dnssec",
            KnownTable::IdnLanguage => "idnLanguage",
            KnownTable::Nndn => "NNDN",
        }
    }

    /// The name of the table that is declared: mostly the stem of its files.
    pub fn table_name(self) -> &'static str
        ensures { result.now ≡ table_name self }
    {
        match self {
            KnownTable::RegistrarDeletes => "registrar",
            KnownTable::ContactDeletes => "contact",
            KnownTable::HostDeletes => "host",
            KnownTable::DomainDeletes => "domain",
            KnownTable::IdnLanguageDeletes | KnownTable::IdnLanguage => "idn",
            KnownTable::NndnDeletes | KnownTable::Nndn => "nndn",
            KnownTable::DomainNameServers => "domainNs",
            KnownTable::DomainNameServersAddresses => "domainHostAttr",
            KnownTable::Dnssec => "secDNS",
            _ => self.file_stem(),
        }
    }

    /// The kind of its objects.
    pub fn kind(self) -> Kind
        ensures { result ≡ table_kind self }
    {
        match self {
            KnownTable::RegistrarDeletes | KnownTable::Registrar => Kind::Registrar,
            KnownTable::ContactDeletes
            | KnownTable::Contact
            | KnownTable::ContactPostal
            | KnownTable::ContactStatuses
            | KnownTable::ContactTransfer
            | KnownTable::ContactDisclose => Kind::Contact,
            KnownTable::HostDeletes
            | KnownTable::Host
            | KnownTable::HostAddresses
            | KnownTable::HostStatuses => Kind::Host,
            KnownTable::DomainDeletes
            | KnownTable::Domain
            | KnownTable::DomainContacts
            | KnownTable::DomainNameServers
            | KnownTable::DomainNameServersAddresses
            | KnownTable::DomainStatuses
            | KnownTable::DomainTransfer
            | KnownTable::Dnssec => Kind::Domain,
            KnownTable::IdnLanguageDeletes | KnownTable::IdnLanguage => Kind::Idn,
            KnownTable::NndnDeletes | KnownTable::Nndn => Kind::Nndn,
        }
    }

    /// Whether its rows are the keys of deleted objects.
    pub fn is_of_deletes(self) -> bool
        ensures { result ≡ is_of_deletes self }
    {
        matches!(
            self,
            KnownTable::RegistrarDeletes
                | KnownTable::ContactDeletes
                | KnownTable::HostDeletes
                | KnownTable::DomainDeletes
                | KnownTable::IdnLanguageDeletes
                | KnownTable::NndnDeletes
        )
    }

    /// Whether it is a parent table, with a row for each object or deleted key, and not a child
    /// table.
    pub fn is_parent(self) -> bool
        ensures { result ≡ is_parent self }
    {
        match self {
            KnownTable::ContactPostal
            | KnownTable::ContactStatuses
            | KnownTable::ContactTransfer
            | KnownTable::ContactDisclose
            | KnownTable::HostAddresses
            | KnownTable::HostStatuses
            | KnownTable::DomainContacts
            | KnownTable::DomainNameServers
            | KnownTable::DomainNameServersAddresses
            | KnownTable::DomainStatuses
            | KnownTable::DomainTransfer
            | KnownTable::Dnssec => false,
            _ => true,
        }
    }

    /// Whether a field of this name has the key of its rows.
    pub fn is_key(self, field: &str) -> bool
        ensures { result ≡ is_key self field.now }
    {
        match self.kind() {
            Kind::Registrar | Kind::Contact => field == "id" || field == "fId",
            Kind::Host => {
                field == "name" || field == "fName" || field == "hostName" || field == "fHostName"
            }
            Kind::Domain => {
                field == "name"
                    || field == "fName"
                    || field == "domainName"
                    || field == "fDomainName"
            }
            Kind::Idn => {
                field == "id" || field == "fId" || field == "idnTableId" || field == "fIdnTableId"
            }
            Kind::Nndn => field == "aName" || field == "fAName",
        }
    }
}

/// Whether a name begins with a stem and a dash or a dot after it that `delete` doesn't follow.
pub(crate) fn is_file_of(stem: &[u8], name: &[u8]) -> bool
    ensures { result ≡ is_file_of stem.now name.now }
{
    stem.len() < name.len()
        && &name[..stem.len()] == stem
        && (name[stem.len()] == b'-' || name[stem.len()] == b'.')
        && !name[stem.len() + 1..].starts_with(b"delete")
}
