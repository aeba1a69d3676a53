//! What holds of all records and their lines, by the definitions alone.
//!
//! The functions here do nothing. Each has a law as its contract: a caller who needs the law calls
//! it.

ghost use Rattle.std.specs.Prelude.{◌≡◌, List, [], ◌∷◌, ℕ, All, codes};
ghost use Rattle.std.specs.List.{flat_map};
ghost use Rattle.std.specs.declared.net.ip_addr.IpAddr.TheVariants.{V4, V6};
ghost use Rattle.esc_zone.specs.Records.{RecordValue, IsRecord, AreLines, record_text};
ghost use Rattle.esc_zone.specs.Records.Data.{server, signer, address};

/// Lines are those of one list of records.
pub fn lines_have_one_reading()
    ensures one_list { (rs qs : List RecordValue) → All IsRecord rs → All IsRecord qs
        → flat_map record_text rs ≡ flat_map record_text qs → rs ≡ qs }
    ensures of_lines { (text : List ℕ) (a b : AreLines text) → a.records ≡ b.records }
{}

/// The definition at the lines of this crate's page, and at an address that has a `::` and one that
/// ends as an IPv4 address.
pub fn worked_lines()
    ensures server { record_text (record {
      owner = codes "a.example";
      ttl = 3600;
      said = server (codes "ns1.a.example");
    }) ≡ codes "a.example. 3600 IN NS ns1.a.example.\n" }
    ensures signer { record_text (record {
      owner = codes "a.example";
      ttl = 3600;
      said = signer (record {
        tag = 12345;
        algorithm = 13;
        kind = 2;
        digest = 0 ∷ 17 ∷ 238 ∷ 255 ∷ [];
      });
    }) ≡ codes "a.example. 3600 IN DS 12345 13 2 0011EEFF\n" }
    ensures v4 { record_text (record {
      owner = codes "ns1.a.example";
      ttl = 3600;
      said = address (V4 (record { octets = 192 ∷ 0 ∷ 2 ∷ 1 ∷ [] }));
    }) ≡ codes "ns1.a.example. 3600 IN A 192.0.2.1\n" }
    ensures v6 { record_text (record {
      owner = codes "ns1.a.example";
      ttl = 3600;
      said = address (V6 (record { segments = 0x2001 ∷ 0xdb8 ∷ 0 ∷ 0 ∷ 0 ∷ 0 ∷ 0 ∷ 1 ∷ [] }));
    }) ≡ codes "ns1.a.example. 3600 IN AAAA 2001:db8::1\n" }
    ensures mapped { record_text (record {
      owner = codes "ns1.a.example";
      ttl = 3600;
      said = address (V6 (record {
        segments = 0 ∷ 0 ∷ 0 ∷ 0 ∷ 0 ∷ 0xffff ∷ 0xc000 ∷ 0x201 ∷ [];
      }));
    }) ≡ codes "ns1.a.example. 3600 IN AAAA ::ffff:192.0.2.1\n" }
{}
