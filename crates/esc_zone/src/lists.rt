//! Lists that grow.

ghost use Rattle.std.specs.Prelude.{◌≡◌, [], ◌++◌, OnOk};
ghost use Rattle.std.specs.List.{cons_option};

use esc_bundle::NoMemory;

/// Adds an item, if there is one.
pub(crate) fn push_some<T: Drop>(items: &mut Vec<T>, item: Option<T>) -> Result<(), NoMemory>
    ensures { OnOk result (items.new.items ≡ items.old.items ++ cons_option item []) }
{
    match item {
        Some(item) => {
            items.push(item)?;
            Ok(())
        }
        None => Ok(()),
    }
}
