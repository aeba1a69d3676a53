//! The report of links, and of what else breaks a rule (V1 to V7).

ghost use Rattle.std.specs.Prelude.{◌≡◌, ◌∷◌, [], ◌++◌, IfOk, OnOk, string_bytes};
ghost use Rattle.esc_csv.specs.Lines.{line_text};
ghost use Rattle.esc_reports.specs.LinksText.{links_heading, finding_line};
ghost use Rattle.esc_reports.specs.LinksText.{findings_text, links_text};

use esc_bundle::NoMemory;
use esc_check::Finding;
use esc_csv::Lines;
use std::alloc::Global;

/// The report of links: the heading `code,kind,key,field,value,other`, and a line for each finding.
pub(crate) fn links_text(alloc: Global, findings: &[Finding]) -> Result<Vec<u8>, NoMemory>
    ensures text { IfOk result (λ text. text.items ≡ links_text findings.now) }
{
    let mut lines = Lines::new(alloc);
    write_heading(&mut lines)?;
    write_findings(alloc, &mut lines, findings)?;
    lines.into_text()
}

fn write_heading(lines: &mut Lines) -> Result<(), NoMemory>
    ensures { OnOk result (lines.new ≡ lines.old ++ line_text links_heading) }
{
    lines.write(&[b"code", b"kind", b"key", b"field", b"value", b"other"])
}

fn write_findings(alloc: Global, lines: &mut Lines, findings: &[Finding]) -> Result<(), NoMemory>
    ensures { OnOk result (lines.new ≡ lines.old ++ findings_text findings.now) }
{
    for finding in findings {
        write_finding(alloc, lines, finding)?;
    }
    Ok(())
}

fn write_finding<'x>(alloc: Global, lines: &mut Lines, finding: &'x Finding) -> Result<(), NoMemory>
    ensures { OnOk result (lines.new ≡ lines.old ++ line_text (finding_line finding.now)) }
{
    let kind: &'x str = finding.kind.name();
    let code = format!(in alloc; "{}", finding.rule)?;
    lines.write(&[
        code.as_bytes(),
        kind.as_bytes(),
        finding.key.as_bytes(),
        finding.field.as_bytes(),
        finding.value.as_bytes(),
        finding.other.as_bytes(),
    ])
}
