//! The fields by which links, statuses and dates go.

use esc_envelope::Kind;

/// A field by which a link, a status or a date goes, in the rows of one kind of objects (RFC 9022,
/// RFC 5731 to 5733, and this project's profile).
#[derive(Clone, Copy, Debug, PartialEq, Eq)]
pub enum Guide {
    /// When a registrar was created.
    RegistrarCreation,
    /// The registrar of a contact.
    ContactSponsor,
    /// When a contact was created.
    ContactCreation,
    /// A status of a contact.
    ContactStatus,
    /// The registrar of a host.
    HostSponsor,
    /// When a host was created.
    HostCreation,
    /// A status of a host.
    HostStatus,
    /// The registrar of a domain.
    DomainSponsor,
    /// The registrant of a domain.
    DomainRegistrant,
    /// The IDN table of a domain.
    DomainTable,
    /// When a domain was created.
    DomainCreation,
    /// When a domain expires.
    DomainExpiry,
    /// A contact of a domain.
    DomainContact,
    /// A host of a domain.
    DomainHost,
    /// A status of a domain.
    DomainStatus,
    /// The IDN table of a name that is not in the DNS.
    NndnTable,
}

impl Guide {
    ghost use Rattle.std.specs.Prelude.{◌≡◌};
    ghost use Rattle.esc_acceptance.specs.Guides.{guide_kind, child_name, guide_field_name};
    ghost use Rattle.esc_acceptance.specs.Guides.{leads_to_idn};

    /// All of them.
    pub const ALL: [Guide; 16] = [
        Guide::RegistrarCreation,
        Guide::ContactSponsor,
        Guide::ContactCreation,
        Guide::ContactStatus,
        Guide::HostSponsor,
        Guide::HostCreation,
        Guide::HostStatus,
        Guide::DomainSponsor,
        Guide::DomainRegistrant,
        Guide::DomainTable,
        Guide::DomainCreation,
        Guide::DomainExpiry,
        Guide::DomainContact,
        Guide::DomainHost,
        Guide::DomainStatus,
        Guide::NndnTable,
    ];

    /// The kind of the objects that have it.
    pub fn kind(self) -> Kind
        ensures { result ≡ guide_kind self }
    {
        match self {
            Guide::RegistrarCreation => Kind::Registrar,
            Guide::ContactSponsor | Guide::ContactCreation | Guide::ContactStatus => Kind::Contact,
            Guide::HostSponsor | Guide::HostCreation | Guide::HostStatus => Kind::Host,
            Guide::DomainSponsor
            | Guide::DomainRegistrant
            | Guide::DomainTable
            | Guide::DomainCreation
            | Guide::DomainExpiry
            | Guide::DomainContact
            | Guide::DomainHost
            | Guide::DomainStatus => Kind::Domain,
            Guide::NndnTable => Kind::Nndn,
        }
    }

    /// The name of the child table that has it; empty where the parent rows do.
    pub fn child_name(self) -> &'static str
        ensures { result.now ≡ child_name self }
    {
        match self {
            Guide::RegistrarCreation
            | Guide::ContactSponsor
            | Guide::ContactCreation
            | Guide::HostSponsor
            | Guide::HostCreation
            | Guide::DomainSponsor
            | Guide::DomainRegistrant
            | Guide::DomainTable
            | Guide::DomainCreation
            | Guide::DomainExpiry
            | Guide::NndnTable => "",
            Guide::ContactStatus => "contactStatuses",
            Guide::HostStatus => "hostStatuses",
            Guide::DomainContact => "domainContacts",
            Guide::DomainHost => "domainNs",
            Guide::DomainStatus => "domainStatuses",
        }
    }

    /// The name of the field.
    pub fn field_name(self) -> &'static str
        ensures { result.now ≡ guide_field_name self }
    {
        match self {
            Guide::RegistrarCreation
            | Guide::ContactCreation
            | Guide::HostCreation
            | Guide::DomainCreation => "crDate",
            Guide::ContactSponsor | Guide::HostSponsor | Guide::DomainSponsor => "clID",
            Guide::ContactStatus | Guide::HostStatus | Guide::DomainStatus => "status",
            Guide::DomainRegistrant => "registrant",
            Guide::DomainTable | Guide::NndnTable => "idnTableId",
            Guide::DomainExpiry => "exDate",
            Guide::DomainContact => "contactId",
            Guide::DomainHost => "hostName",
        }
    }

    /// Whether it leads to IDN tables, which a registry may be without.
    pub fn leads_to_idn(self) -> bool
        ensures { result ≡ leads_to_idn self }
    {
        match self {
            Guide::RegistrarCreation
            | Guide::ContactSponsor
            | Guide::ContactCreation
            | Guide::ContactStatus
            | Guide::HostSponsor
            | Guide::HostCreation
            | Guide::HostStatus
            | Guide::DomainSponsor
            | Guide::DomainRegistrant
            | Guide::DomainCreation
            | Guide::DomainExpiry
            | Guide::DomainContact
            | Guide::DomainHost
            | Guide::DomainStatus => false,
            Guide::DomainTable | Guide::NndnTable => true,
        }
    }
}
