//! Names that are gathered one after another.

ghost use Rattle.std.specs.Prelude.{◌≡◌, map, OnOk, string_bytes};
ghost use Rattle.std.specs.List.{list_any};
ghost use Rattle.std.specs.Str.{bytes_eq};
ghost use Rattle.esc_table_files.specs.Gathering.{with_name};

use esc_bundle::NoMemory;
use std::alloc::Global;

fn is_among(names: &[String], name: &str) -> bool
    ensures { result ≡ list_any (λ n. bytes_eq name.now (string_bytes n)) names.now }
{
    names.iter().any(|other| name == other.as_str())
}

/// Adds a name at the end of these, unless it is among them.
#[tactic(auto, using(crate::proofs::Names::name_known, crate::proofs::Names::name_new))]
pub(crate) fn add_name(alloc: Global, names: &mut Vec<String>, name: &str) -> Result<(), NoMemory>
    ensures { OnOk result (map string_bytes names.new.items
        ≡ with_name (map string_bytes names.old.items) name.now) }
{
    if is_among(names, name) {
        return Ok(());
    }
    names.push(String::from_str(alloc, name)?)?;
    Ok(())
}
