//! Where the rows of declared tables are: the members `from` and `heading` of a declaration.

ghost use Rattle.std.specs.Prelude.{◌≡◌, IfOk, map, option_map, string_bytes, codes};
ghost use Rattle.serde_json.specs.Find.{get, as_str};
ghost use Rattle.serde_json.specs.View.{view};
ghost use Rattle.esc_envelope.specs.Envelope.{json_of};
ghost use Rattle.esc_envelope.specs.DeclaredTables.{all_of};
ghost use Rattle.esc_pack.specs.TableFiles.{heading_from, only_file, texts_in, files_from};
ghost use Rattle.esc_pack.specs.TableFiles.{source_of, sources_in, sources_of};

use esc_bundle::NoMemory;
use esc_envelope::{array_in, array_of, text_at};
use serde_json::Value;
use std::alloc::Global;
use std::marker::Model;

/// The files of a declared table.
#[derive(Debug, Drop)]
pub struct Source {
    /// Whether each begins with a heading row.
    pub has_heading: bool,
    /// Their names in the folder, in order.
    pub files: Vec<String>,
}

impl Model for Source {
    ghost use Rattle.std.specs.Prelude.{map, string_bytes};
    ghost use Rattle.esc_pack.specs.TableFiles.{SourceValue};

    ghost Value = { SourceValue };

    ghost view = { λ s. record {
      has_heading = s.has_heading;
      files = map string_bytes s.files.items;
    } };
}

/// The files of all tables that a description declares, in its order.
#[derive(Debug, Drop)]
pub struct Sources {
    pub contents: Vec<Source>,
    pub deletes: Vec<Source>,
}

impl Model for Sources {
    ghost use Rattle.esc_pack.specs.TableFiles.{SourcesValue};

    ghost Value = { SourcesValue };

    ghost view = { λ s. record { contents = s.contents.items; deletes = s.deletes.items } };
}

fn heading_in(table: &Value) -> Option<bool>
    ensures { result ≡ heading_from (get (codes "heading") (view table.now)) }
{
    match table.get("heading") {
        Some(heading) => heading.as_bool(),
        None => Some(false),
    }
}

fn all_texts(alloc: Global, values: &[Value]) -> Result<Option<Vec<String>>, NoMemory>
    ensures { IfOk result (λ o. option_map (λ v. map string_bytes v.items) o
        ≡ all_of as_str (map view values.now)) }
{
    let mut texts = Vec::new(alloc);
    for value in values {
        let Some(text) = value.as_str() else {
            return Ok(None);
        };
        texts.push(String::from_str(alloc, text)?)?;
    }
    Ok(Some(texts))
}

fn texts_in(alloc: Global, value: &Value) -> Result<Option<Vec<String>>, NoMemory>
    ensures { IfOk result (λ o. option_map (λ v. map string_bytes v.items) o
        ≡ texts_in (view value.now)) }
{
    match array_in(value) {
        Some(values) => all_texts(alloc, values),
        None => Ok(None),
    }
}

fn only_file(alloc: Global, table: &Value) -> Result<Option<Vec<String>>, NoMemory>
    ensures { IfOk result (λ o. option_map (λ v. map string_bytes v.items) o
        ≡ only_file (view table.now)) }
{
    let Some(name) = text_at(table, "file") else {
        return Ok(None);
    };
    let mut names = Vec::new(alloc);
    names.push(String::from_str(alloc, name)?)?;
    Ok(Some(names))
}

fn files_in(alloc: Global, table: &Value) -> Result<Option<Vec<String>>, NoMemory>
    ensures { IfOk result (λ o. option_map (λ v. map string_bytes v.items) o
        ≡ files_from (view table.now) (get (codes "from") (view table.now))) }
{
    match table.get("from") {
        Some(from) => texts_in(alloc, from),
        None => only_file(alloc, table),
    }
}

#[tactic(auto, unfolding(crate::specs::TableFiles::source_of))]
fn source_in(alloc: Global, table: &Value) -> Result<Option<Source>, NoMemory>
    ensures { IfOk result (λ o. o ≡ source_of (view table.now)) }
{
    let Some(has_heading) = heading_in(table) else {
        return Ok(None);
    };
    let Some(files) = files_in(alloc, table)? else {
        return Ok(None);
    };
    Ok(Some(Source { has_heading, files }))
}

fn all_sources(alloc: Global, values: &[Value]) -> Result<Option<Vec<Source>>, NoMemory>
    ensures { IfOk result (λ o. option_map (λ v. v.items) o
        ≡ all_of source_of (map view values.now)) }
{
    let mut sources = Vec::new(alloc);
    for value in values {
        let Some(source) = source_in(alloc, value)? else {
            return Ok(None);
        };
        sources.push(source)?;
    }
    Ok(Some(sources))
}

#[tactic(auto, unfolding(crate::specs::TableFiles::sources_in))]
fn sources_in(alloc: Global, json: &Value) -> Result<Option<Sources>, NoMemory>
    ensures { IfOk result (λ o. o ≡ sources_in (view json.now)) }
{
    let Some(declared) = array_of(json, "contents") else {
        return Ok(None);
    };
    let Some(deleted) = array_of(json, "deletes") else {
        return Ok(None);
    };
    let Some(contents) = all_sources(alloc, declared)? else {
        return Ok(None);
    };
    let Some(deletes) = all_sources(alloc, deleted)? else {
        return Ok(None);
    };
    Ok(Some(Sources { contents, deletes }))
}

/// The value of a JSON text, if it is one.
pub(crate) fn parsed(alloc: Global, json: &[u8]) -> Result<Option<Value>, NoMemory>
    ensures { IfOk result (λ o. option_map view o ≡ json_of json.now) }
{
    match Value::from_slice(alloc, json) {
        Ok(value) => Ok(Some(value)),
        Err(error) => {
            if error.is_memory() {
                Err(NoMemory)
            } else {
                Ok(None)
            }
        }
    }
}

/// The files that a description names for its tables: `from`, an array of names, without it the one
/// that `file` names; and `heading`, true where each begins with a heading row. `None` where the
/// description is no JSON, or one of these members has another form.
#[tactic(auto, unfolding(crate::specs::TableFiles::sources_of))]
pub fn read_sources(alloc: Global, description: &[u8]) -> Result<Option<Sources>, NoMemory>
    ensures { IfOk result (λ o. o ≡ sources_of description.now) }
{
    let Some(json) = parsed(alloc, description)? else {
        return Ok(None);
    };
    sources_in(alloc, &json)
}
