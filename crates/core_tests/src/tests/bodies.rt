//! Bodies of the worked rows, and of what they leave.

/// F1, a Full: registrar R1, contact C1 and domain a.example.
pub(crate) const FIRST: &str = "escrow-bundle 1
envelope.json 407
{\"id\":\"F1\",\"type\":\"FULL\",\"watermark\":\"2024-03-03T00:00:00Z\",\"contents\":[{\"name\":\"registrar\",\"kind\":\"registrar\",\"role\":\"parent\",\"key\":\"id\",\"fields\":[\"id\"],\"file\":\"registrar.csv\"},{\"name\":\"contact\",\"kind\":\"contact\",\"role\":\"parent\",\"key\":\"id\",\"fields\":[\"id\",\"clID\"],\"file\":\"contact.csv\"},{\"name\":\"domain\",\"kind\":\"domain\",\"role\":\"parent\",\"key\":\"name\",\"fields\":[\"name\",\"clID\",\"registrant\"],\"file\":\"domain.csv\"}]}
registrar.csv 3
R1

contact.csv 6
C1,R1

domain.csv 16
a.example,R1,C1

end
";

/// D2, on F1: domain b.example.
pub(crate) const SECOND: &str = "escrow-bundle 1
envelope.json 208
{\"id\":\"D2\",\"type\":\"DIFF\",\"watermark\":\"2024-03-04T00:00:00Z\",\"prevId\":\"F1\",\"contents\":[{\"name\":\"domain\",\"kind\":\"domain\",\"role\":\"parent\",\"key\":\"name\",\"fields\":[\"name\",\"clID\",\"registrant\"],\"file\":\"domain.csv\"}]}
domain.csv 16
b.example,R1,C1

end
";

/// D2 again, at resend 1: domains b.example and c.example.
pub(crate) const RESENT: &str = "escrow-bundle 1
envelope.json 219
{\"id\":\"D2\",\"type\":\"DIFF\",\"watermark\":\"2024-03-04T00:00:00Z\",\"prevId\":\"F1\",\"resend\":1,\"contents\":[{\"name\":\"domain\",\"kind\":\"domain\",\"role\":\"parent\",\"key\":\"name\",\"fields\":[\"name\",\"clID\",\"registrant\"],\"file\":\"domain.csv\"}]}
domain.csv 32
b.example,R1,C1
c.example,R1,C1

end
";

/// D3, on D2: it deletes domain a.example.
pub(crate) const THIRD: &str = "escrow-bundle 1
envelope.json 188
{\"id\":\"D3\",\"type\":\"DIFF\",\"watermark\":\"2024-03-05T00:00:00Z\",\"prevId\":\"D2\",\"deletes\":[{\"name\":\"domain\",\"kind\":\"domain\",\"role\":\"parent\",\"key\":\"name\",\"fields\":[\"name\"],\"file\":\"deleted.csv\"}]}
deleted.csv 10
a.example

end
";

/// Domain g.example is ok and gone, and expires before it is created, after the watermark;
/// h.example was created on a date that is none.
pub(crate) const DATED: &str = "escrow-bundle 1
envelope.json 562
{\"id\":\"F1\",\"type\":\"FULL\",\"watermark\":\"2024-03-03T00:00:00Z\",\"contents\":[{\"name\":\"registrar\",\"kind\":\"registrar\",\"role\":\"parent\",\"key\":\"id\",\"fields\":[\"id\"],\"file\":\"registrar.csv\"},{\"name\":\"contact\",\"kind\":\"contact\",\"role\":\"parent\",\"key\":\"id\",\"fields\":[\"id\",\"clID\"],\"file\":\"contact.csv\"},{\"name\":\"domain\",\"kind\":\"domain\",\"role\":\"parent\",\"key\":\"name\",\"fields\":[\"name\",\"clID\",\"registrant\",\"crDate\",\"exDate\"],\"file\":\"domain.csv\"},{\"name\":\"domainStatuses\",\"kind\":\"domain\",\"role\":\"child\",\"key\":\"domainName\",\"fields\":[\"domainName\",\"status\"],\"file\":\"domainstatuses.csv\"}]}
registrar.csv 3
R1

contact.csv 6
C1,R1

domain.csv 86
g.example,R1,C1,2024-03-04T00:00:00Z,2024-03-02T00:00:00Z
h.example,R1,C1,2024-03-04,

domainstatuses.csv 28
g.example,ok
g.example,gone

end
";
