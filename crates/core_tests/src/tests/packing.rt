//! Bundles of files of other tables than are declared.

use super::asserts::assert_told;
use esc_pack::{TableFiles, bundle_of_files};
use std::alloc::{AllocError, Global};

/// Declares no table.
const DESCRIPTION: &[u8] =
    b"{\"id\":\"F1\",\"type\":\"FULL\",\"watermark\":\"2024-03-03T00:00:00Z\"}";

fn packed(alloc: Global, given: &[TableFiles<'_>]) -> Result<String, AllocError> {
    match bundle_of_files(alloc, DESCRIPTION, given) {
        Ok(_) => String::from_str(alloc, "a bundle"),
        Err(fault) => Ok(format!(in alloc; "{fault}")?),
    }
}

#[test]
fn files_of_other_tables_are_refused(rt: HostRuntime) -> Result<(), AllocError> {
    let alloc = rt.alloc();
    let files = Vec::from_array(alloc, [b"C1,R1\n".as_slice()])?;
    let given = Vec::from_array(
        alloc,
        [TableFiles {
            has_heading: false,
            files,
        }],
    )?;
    assert_told(
        &rt,
        "files",
        packed(alloc, &given),
        "other tables than declared",
    );
    Ok(())
}
