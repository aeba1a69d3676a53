//! The chain and the gaps of a small manifest, by the plain calls.

ghost use Rattle.esc_chain.specs.Chain.{InRange};

use super::asserts::assert_told;
use esc_bundle::NoMemory;
use esc_chain::{GapLine, Held, gaps, latest_chain};
use esc_manifest::{Manifest, ManifestFault, read_manifest};
use std::alloc::Global;

/// Two Fulls, Differentials, an Incremental, a Differential at a later resend, and one whose prevId
/// is not listed.
const LISTED: &str = "id,type,watermark,prevId,resend,sha256
F1,FULL,2024-03-03T00:00:00Z,,,0000000000000000000000000000000000000000000000000000000000000000
D2,DIFF,2024-03-04T00:00:00Z,F1,,0000000000000000000000000000000000000000000000000000000000000001
D3,DIFF,2024-03-05T00:00:00Z,D2,,0000000000000000000000000000000000000000000000000000000000000002
I4,INCR,2024-03-06T00:00:00Z,D3,,0000000000000000000000000000000000000000000000000000000000000003
F5,FULL,2024-03-10T00:00:00Z,,,0000000000000000000000000000000000000000000000000000000000000004
D6,DIFF,2024-03-11T00:00:00Z,F5,,0000000000000000000000000000000000000000000000000000000000000005
D2,DIFF,2024-03-04T00:00:00Z,F1,1,0000000000000000000000000000000000000000000000000000000000000006
D3,DIFF,2024-03-05T00:00:00Z,X9,1,0000000000000000000000000000000000000000000000000000000000000007
";

/// Its rows that are held: F1, D2 and both D3.
const HELD: [usize; 4] = [0, 1, 2, 7];

/// What is said of them: the chain, and then a line for each listed place.
const TOLD: &str = "[0, 1]
1709424000000000000 FULL chain None
1709510400000000000 DIFF chain Some(1)
1709596800000000000 DIFF blocked None unlisted X9
1709683200000000000 INCR missing Some(0)
1710028800000000000 FULL missing Some(0)
1710115200000000000 DIFF missing Some(0)
";

// The place, the state, the awaited resend and the blocker of a line.
fn push_line(text: &mut String, line: &GapLine) -> Result<(), NoMemory> {
    let (watermark, kind) = (line.place.watermark, line.place.kind.name());
    let (state, awaited) = (line.state, line.awaited);
    write!(text, "{watermark} {kind} {state} {awaited:?}")?;
    if let Some(blocker) = &line.blocker {
        write!(text, " {blocker}")?;
    }
    Ok(text.push_str("\n")?)
}

fn push_told(
    text: &mut String,
    alloc: Global,
    manifest: &Manifest,
    held: &Held,
) -> Result<(), NoMemory>
    requires { InRange manifest.now held.now }
{
    let chain = latest_chain(alloc, manifest, held)?;
    writeln!(text, "{chain:?}")?;
    for line in &gaps(alloc, manifest, held)? {
        push_line(text, line)?;
    }
    Ok(())
}

fn told(alloc: Global) -> Result<String, ManifestFault> {
    let manifest = read_manifest(alloc, LISTED.as_bytes())?;
    let mut text = String::new(alloc);
    if let Some(held) = Held::from_rows(alloc, &manifest, &HELD)? {
        push_told(&mut text, alloc, &manifest, &held)?;
    }
    Ok(text)
}

#[test]
fn a_small_manifest(rt: HostRuntime) {
    assert_told(&rt, "a small manifest", told(rt.alloc()), TOLD);
}
