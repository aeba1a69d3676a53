//! The values of attributes.

ghost use Rattle.std.specs.Prelude.{◌≡◌, ◌++◌, OnOk, IfOk, string_bytes};
ghost use Rattle.std.specs.Fmt.{decimal};
ghost use Rattle.esc_html.specs.Escape.{escaped};
ghost use Rattle.esc_html.specs.Markup.{share_text, value_text};

use crate::escape::push_escaped;
use esc_bundle::NoMemory;
use std::alloc::Global;

/// The value of an attribute.
#[derive(Clone, Copy, Debug)]
pub enum Value<'a> {
    Text(&'a str),
    Number(u64),
    /// So many thousandths, as a percentage: 375 is `37.5%`.
    Share(u32),
}

fn number_text(alloc: Global, number: u64) -> Result<String, NoMemory>
    ensures { IfOk result (λ text. string_bytes text ≡ decimal number) }
{
    Ok(format!(in alloc; "{number}")?)
}

fn share_text(alloc: Global, thousandths: u32) -> Result<String, NoMemory>
    ensures { IfOk result (λ text. string_bytes text ≡ share_text thousandths) }
{
    let (whole, rest) = (thousandths / 10, thousandths % 10);
    Ok(format!(in alloc; "{whole}.{rest}%")?)
}

/// Adds a value, escaped.
pub(crate) fn push_value(
    alloc: Global,
    bytes: &mut Vec<u8>,
    value: Value<'_>,
) -> Result<(), NoMemory>
    ensures { OnOk result (bytes.new.items
        ≡ bytes.old.items ++ escaped (value_text value.entry)) }
{
    match value {
        Value::Text(text) => push_escaped(bytes, text.as_bytes()),
        Value::Number(number) => {
            let text = number_text(alloc, number)?;
            push_escaped(bytes, text.as_bytes())
        }
        Value::Share(thousandths) => {
            let text = share_text(alloc, thousandths)?;
            push_escaped(bytes, text.as_bytes())
        }
    }
}
