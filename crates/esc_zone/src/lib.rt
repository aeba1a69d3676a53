//! The zone of a top-level domain, made of the tables of its registry.
//!
//! # In and out
//!
//! In come the objects of a registry, one at a time, and the operator's own records: a file with
//! the SOA and the name servers of the zone's apex. Out come the lines of a zone (RFC 1035, section
//! 5) that has delegations alone, and a line for each thing that is left out of it though the
//! registry would have it there. Names are bytes of keys and fields with ASCII letters lowered, and
//! without one dot at their end.
//!
//! ```text
//! let mut draft = Draft::new(alloc, settings, apex);
//! draft.note_domains(&mut walk(Kind::Domain))?;      // servers in the zone, names above others
//! draft.note_mirrors(&mut walk(Kind::Nndn))?;
//! draft.take_hosts(&mut walk(Kind::Host))?;          // the addresses of these servers
//! draft.take_domains(&mut walk(Kind::Domain))?;      // which of these names are delegated
//! draft.take_mirrors(&mut walk(Kind::Nndn))?;
//! draft.settle()?;
//! draft.write_domains(&mut walk(Kind::Domain), &mut zone, &mut told)?;    // NS, DS
//! draft.write_mirrors(&mut walk(Kind::Nndn), &mut zone, &mut told)?;      // NS
//! draft.write_glue(&mut zone, &mut told)?;                                // A, AAAA
//! ```
//!
//! In memory are, beside one object, the servers in the zone that are in use, the names at or above
//! them and above other domains, and mirrored names with their originals.
//!
//! # The zone
//!
//! A line for each record, each with its full name, its TTL and `IN`, and one space between words:
//!
//! 1. the operator's records, in their order, with the serial in the place of `SERIAL`; empty lines
//!    and those that begin with `;` are left out;
//! 2. of each domain, by the bytes of its key: its NS by the bytes of the server's name, and its DS
//!    by tag, algorithm, type and digest, each once;
//! 3. of each mirrored name, by the bytes of its key: the NS that its original has;
//! 4. of each server in the zone, by the bytes of its name: A and then AAAA, by number, each once.
//!
//! ```text
//! a.example. 3600 IN NS ns1.a.example.
//! a.example. 3600 IN DS 12345 13 2 0011..EEFF
//! ns1.a.example. 3600 IN A 192.0.2.1
//! ns1.a.example. 3600 IN AAAA 2001:db8::1
//! ```
//!
//! # What is told
//!
//! On standard error, a line each, as it is found. A text of the tables is printed as it is; if it
//! has control characters, these and its backslashes are escaped as Rust writes them. `NAME`,
//! `ABOVE`, `ORIGINAL`, `CUT` are names of domains and mirrored names, `HOST` is that of a server.
//!
//! ```text
//! status NAME FIELD VALUE taken for STATUS        FIELD is status or rgpStatus; in other letters
//! status NAME FIELD VALUE is not known
//! status NAME RGP without pendingDelete           RGP: of pendingDelete, pendingRestore and
//!                                                 redemptionPeriod those that there are, so ordered
//! left out NAME inactive, and has servers
//! left out NAME a variant of ORIGINAL without servers of its own
//! left out NAME it is the zone itself
//! left out NAME not below ORIGIN
//! left out NAME FAULT                             of the name, below
//! left out NAME below ABOVE, which is delegated
//! server NAME HOST: left out: FAULT
//! server NAME HOST: left out: it is an address
//! server NAME HOST: left out: in the zone, and has no address
//! server NAME HOST: has no address here, and is left to CUT
//! left out NAME no server is left
//! DS NAME left out: WHY                           below
//! address HOST TEXT: NAME says it, which is not the domain that it is in
//! left out NAME it is a domain too                this and the next three: a mirrored name
//! left out NAME mirrored in another way than by name servers: mirroringNS is VALUE
//! left out NAME mirrored without originalName
//! left out NAME its original ORIGINAL is no domain
//! address HOST TEXT: no address
//! address HOST TEXT: an address of no server
//! address HOST TEXT: is v6, declared v4           is v4, declared OTHER; is v6, declared v4 (none)
//! address HOST the operator's file has others, which are taken
//! glue HOST below no delegation; NAME uses it
//! ```
//!
//! `FAULT` is the first of these: `not ASCII: a U-label?`, `over 255 bytes on the wire`; of the
//! first label that has one: `an empty label`, `a label over 63 bytes`, `a wildcard`, `no label of
//! letters, digits and hyphens: LABEL`. `WHY` of a DS is `no number up to MOST: VALUE`, `algorithm
//! N, digest type N`, `no digest of N bytes: VALUE`, `no key of DNSSEC: protocol N, algorithm N`,
//! `no zone key, or a revoked one: flags N`, or `a public key that is no base64`.
//!
//! Lines of a domain stand in this order: its statuses by row, the odd RGP statuses, then what it
//! is left out for; or its servers by name, its DS by row, and the addresses that it says of other
//! domains' servers, by row. The other `address` lines and those of `glue` come last, by host:
//! faults of its addresses by row, the operator's, then `glue`. Only servers in the zone that a
//! domain would have, which its statuses let in, have `address` lines.
//!
//! At the end come these counts on standard output, each as `WORD N`, also where it is 0:
//!
//! ```text
//! domains, delegated, held, pendingCreate, redemptionPeriod, pendingRestore, pendingDelete,
//! inactive, without servers, no name of the zone, no server left, DS, DS made of keys, mirrored,
//! mirrored and delegated, orphan glue hosts, addresses, records
//! ```
//!
//! and on standard error, last of all, since the zone has no signatures (RFC 4035, section 4.3),
//! one line:
//!
//! ```text
//! unsigned ORIGIN while the root has its old DS, validating resolvers refuse this zone, also newly
//! signed: have the DS replaced or removed, and wait its TTL, before the NS change
//! ```
//!
//! # Refusals
//!
//! The zone as a whole is refused where it would be doubtful. No file is written then, and standard
//! error ends with one of these. `PATH` is the operator's file.
//!
//! ```text
//! Z1 ORIGIN: FAULT                                or: not in small letters, or with a dot at its end
//! Z2 the serial is not from 1 to 4294967295
//! Z3 PATH line N: WHY
//! Z3 PATH: no zone begins so: one SOA, first; NS; no CNAME or DNAME at ORIGIN
//! Z3 the zone's own server HOST has no address
//! Z4 TABLE looks like WANTED
//! Z4 TABLE FIELD looks like WANTED
//! Z4 TABLE lacks FIELD
//! Z5 KIND NAME: two objects have this name
//! Z6 NAME: CUT is delegated by the operator's file
//! Z6 NAME: the operator's file has TYPE at OTHER
//! Z7 no domain is delegated
//! ```
//!
//! `WHY` of Z3 is one of `not NAME. TTL IN TYPE DATA on one line`, `no TTL: TEXT`, FAULT, `not in
//! ORIGIN`, `a type in small letters, parentheses or a backslash`, `TYPE: it is for the signer`, `a
//! name without a dot at its end`, `no SOA with SERIAL in the place of its serial`, `no address:
//! TEXT`.
//!
//! # What the contracts mean
//!
//! Safe, and it ends: every function, whatever the objects and the operator's file are. By
//! contract, too:
//!
//! - [`hold_of`] says which statuses keep a domain out, letters of either case; and a domain that
//!   they keep out adds no record (`Draft::write_domain`, `kept_out`).
//! - [`Records`] are lines of records alone, whose names are [`Name`]s: labels of `a-z 0-9 - _`. A
//!   record says a name server, a [`Ds`] or an IP address, so no other byte of a deposit is in the
//!   zone. Their text is that of no other records ([`lines_have_one_reading`]): who reads the lines
//!   finds these names, TTLs and data, in this order.
//! - Each pass adds to the zone exactly what each of the things adds that it goes over, one after
//!   the other, and nothing else (`AppendsEach`): `write_domains` what each domain adds
//!   (`IsDomainText`), `write_mirrors` what each name adds that is no domain (`IsMirrorText`), in
//!   the order of the source, if that is honest; `write_glue` what each server adds that is noted
//!   (`noted_servers`, `IsGlueText`), by the bytes of its name. If a source is not honest, what
//!   they add is still lines of records. What is noted of the zone (`zone_notes`) stays the same,
//!   but that `write_glue` takes the texts of addresses out.
//! - A [`Ds`] is that of its row's texts, with the bytes that its type has; or, of a row without
//!   them, that of its zone key: tag, and SHA-256 of the name on the wire with the key's data (RFC
//!   4034, section 5.1.4). Each row of `secDNS` that has one gives it (`IsSigner`).
//! - `Draft::write_domain` says which records a domain adds (`AddsDomain`), by what the draft has
//!   noted: an NS for each of its servers that is written, by the bytes of its name, each once; and
//!   then, of its own name, the DS that its rows give (`AreSigners`), no others, in order, each once.
//!   It adds none where its statuses keep it out, where its name has no place in the zone, or where
//!   no server is left.
//! - A server is written (`IsUsable`) if its text is a name, and it is outside of the zone, or the
//!   zone has an address of it, or another delegation has it.
//! - `Draft::write_mirror` says which records a name adds that is no domain: an NS for each server
//!   that was kept of its original, in order (`mirror_servers`). It adds none unless its row says
//!   that it is mirrored by name servers (`original_in`), it is no domain, its original is one, and
//!   it has its place in the zone (`is_mirror`).
//!   What is kept of a domain that is an original are the servers of the NS that it adds
//!   (`KeepsServers`, of `Draft::write_domain`).
//! - `Draft::write_host` says which records a server in the zone adds (`AddsGlue`): an A or AAAA
//!   for each address that the texts of its rows are (`AreAddresses`), no others, IPv4 first, by
//!   number, each once. It adds none where no name has it, where the operator's file has its
//!   addresses, or where no delegation is at or above it and such addresses are left out
//!   (`takes_glue`, by which NS are written, too), unless the zone itself has it.
//! - `Draft::settle` says which addresses the tables have (`texts_here`) of a server in the zone
//!   that a domain has which its statuses let in: those of the host with its name; if there is none,
//!   those that the domain says that it is in, which is the nearest at or above it. And of the names
//!   that are noted, those at and above such servers and above such domains among them, it says
//!   which are delegated: a domain in the zone (`IsDelegatedHere`), if no status keeps it out, and it
//!   has a server that is outside of the zone, or one in it that has an address, the operator's or of
//!   the tables; and a mirrored name, if its original is a domain that is delegated (`IsCutDomain`).
//!   So it is after the passes above, in their order, over sources that give what they hold, the
//!   same domains in each pass: each pass says what it adds to what is noted (`AreTaken`; `IsFresh`
//!   at first).
//! - A line is told of each server of a domain, each row that says a DS or a key, and each text of
//!   an address that is left out, and of a domain without a place in the zone or without a server
//!   that is left (`TellsOfDomain`, `TellsOfAddresses`).
//!
//! Tested alone: what the lines say that are told, and the operator's file. `specs/` has the
//! definitions, by name: `Names`, `Addresses`, `Fields`, `Statuses`, `Records`, `Signers`, `Drafts`,
//! `Delegations`, `Mirrors`, `Glue`, `Passes`, `Noted`, `Told`, `Lists`.
#![tactic(auto)]

mod address;
mod apex;
mod counts;
mod domains;
mod draft;
mod fault;
mod field;
mod glue;
mod laws;
mod lists;
mod mirrors;
mod name;
mod notes;
mod passes;
mod reading;
mod records;
mod settling;
mod shapes;
mod sheet;
mod signer;
mod signers;
mod status;
mod taking;
mod words;

pub use apex::{Apex, read_apex};
pub use counts::Counts;
pub use draft::{Draft, Settings};
pub use fault::{Halt, Refusal, Rule, ZoneFault};
pub use laws::{lines_have_one_reading, worked_lines};
pub use name::{LONGEST_LABEL, LONGEST_NAME, Name};
pub use reading::{NameFault, read_origin, read_serial};
pub use records::Records;
pub use shapes::{Shape, check_shapes};
pub use signer::{Ds, DsFault};
pub use status::{Hold, hold_of};
