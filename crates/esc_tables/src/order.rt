//! Tables in the order of their names.

ghost use Rattle.std.specs.Prelude.{◌≡◌, IfOk, map, filter, not};
ghost use Rattle.std.specs.List.{position};
ghost use Rattle.std.specs.Ordering.{is_lt, nat_cmp};
ghost use Rattle.std.specs.Cmp.Lexicographic.{slice_cmp};
ghost use Rattle.esc_tables.specs.Reading.{by_name};

use esc_bundle::NoMemory;
use esc_envelope::Table;
use std::alloc::Global;

fn comes_before(name: &str, table: &Table) -> bool
    ensures { result ≡ is_lt (slice_cmp nat_cmp name.now table.now.name) }
{
    name < table.name.as_str()
}

// The index of the first table whose name is after this one.
fn first_after(tables: &[&Table], name: &str) -> Option<usize>
    ensures { result ≡ position (λ t. is_lt (slice_cmp nat_cmp name.now t.now.name)) tables.now }
{
    tables.iter().position(|table| comes_before(name, table))
}

/// The child tables among these, in the byte order of their names. A bundle has at most 64
/// sections, so they are few enough to insert one by one.
pub fn child_tables<'a>(alloc: Global, tables: &'a [Table]) -> Result<Vec<&'a Table>, NoMemory>
    ensures { IfOk result (λ v. map (λ t. t.now) v.items
        ≡ by_name (filter (λ t. not t.parent) tables.now)) }
{
    let mut sorted: Vec<&'a Table> = Vec::new(alloc);
    for table in tables {
        if table.parent {
            continue;
        }
        let place = first_after(sorted.as_slice(), table.name.as_str()).unwrap_or(sorted.len());
        sorted.insert(place, table)?;
    }
    Ok(sorted)
}
