//! Pieces of a page.

ghost use Rattle.std.specs.Prelude.{◌≡◌, [], Some, option_map, IfOk};
ghost use Rattle.std.specs.Fmt.{decimal};
ghost use Rattle.esc_html.specs.Escape.{escaped};
ghost use Rattle.esc_html.specs.Markup.{given, element_text, page_text, IsHtmlPage, joined};
ghost use Rattle.esc_html.specs.Markup.{IsUnlessRefused};

use crate::attribute::Attribute;
use crate::escape::push_escaped;
use crate::tag::Tag;
use crate::value::Value;
use crate::writing::{page_of, push_element};
use esc_bundle::NoMemory;
use std::alloc::Global;
use std::marker::Model;

/// A piece of a page: elements and texts, one after the other. Contracts see what is written, and
/// nothing once memory was refused.
#[derive(Drop)]
pub struct Html {
    alloc: Global,
    bytes: Option<Vec<u8>>,
}

impl Model for Html {
    ghost use Rattle.std.specs.Prelude.{ℕ, List, Option, option_map, IfSome};
    ghost use Rattle.esc_html.specs.Markup.{IsMarkup};

    ghost Value = { Option (List ℕ) };

    ghost view = { λ h. option_map (λ v. v.items) h.bytes };

    ghost invariant = { λ h. IfSome (option_map (λ v. v.items) h.bytes) IsMarkup };
}

// These functions add to what there is, unless memory was refused.

fn with_text(bytes: Option<Vec<u8>>, text: &[u8]) -> Option<Vec<u8>>
    ensures { IsUnlessRefused (joined (option_map (λ v. v.items) bytes) (Some (escaped text.now)))
        (option_map (λ v. v.items) result) }
{
    let mut bytes = bytes?;
    push_escaped(&mut bytes, text).ok()?;
    Some(bytes)
}

fn with_bytes(bytes: Option<Vec<u8>>, more: Option<Vec<u8>>) -> Option<Vec<u8>>
    ensures { IsUnlessRefused
        (joined (option_map (λ v. v.items) bytes) (option_map (λ v. v.items) more))
        (option_map (λ v. v.items) result) }
{
    let mut bytes = bytes?;
    let more = more?;
    bytes.extend_from_slice(&more).ok()?;
    Some(bytes)
}

fn with_element(
    alloc: Global,
    bytes: Option<Vec<u8>>,
    tag: Tag,
    attributes: &[(Attribute, Value<'_>)],
    inside: Option<Vec<u8>>,
) -> Option<Vec<u8>>
    ensures { IsUnlessRefused (joined (option_map (λ v. v.items) bytes)
        (option_map (element_text tag (given attributes.now)) (option_map (λ v. v.items) inside)))
        (option_map (λ v. v.items) result) }
{
    let mut bytes = bytes?;
    let inside = inside?;
    push_element(alloc, &mut bytes, tag, attributes, &inside).ok()?;
    Some(bytes)
}

impl Html {
    /// Nothing yet. Doesn't allocate.
    pub fn new(alloc: Global) -> Html
        ensures { result ≡ Some [] }
    {
        Html {
            alloc,
            bytes: Some(Vec::new(alloc)),
        }
    }

    /// This, and then a text.
    pub fn text(self, text: &str) -> Html
        ensures { IsUnlessRefused (joined self (Some (escaped text.now))) result }
    {
        Html {
            alloc: self.alloc,
            bytes: with_text(self.bytes, text.as_bytes()),
        }
    }

    /// This, and then a number.
    pub fn number(self, number: u64) -> Html
        ensures { IsUnlessRefused (joined self (Some (escaped (decimal number)))) result }
    {
        match format!(in self.alloc; "{number}") {
            Ok(text) => self.text(text.as_str()),
            Err(_) => self.refused(),
        }
    }

    /// Nothing more: memory was refused.
    pub fn refused(self) -> Html
        ensures { result ≡ None }
    {
        Html {
            alloc: self.alloc,
            bytes: None,
        }
    }

    /// This, and then another piece.
    pub fn add(self, more: Html) -> Html
        ensures { IsUnlessRefused (joined self more) result }
    {
        Html {
            alloc: self.alloc,
            bytes: with_bytes(self.bytes, more.bytes),
        }
    }

    /// This, and then an element around a piece.
    pub fn element(self, tag: Tag, attributes: &[(Attribute, Value<'_>)], inside: Html) -> Html
        ensures { IsUnlessRefused
            (joined self (option_map (element_text tag (given attributes.now)) inside)) result }
    {
        Html {
            alloc: self.alloc,
            bytes: with_element(self.alloc, self.bytes, tag, attributes, inside.bytes),
        }
    }

    /// The page with this title and this style, of which this is the body.
    ///
    /// # Errors
    ///
    /// `NoMemory`, here or before.
    pub fn into_page(self, title: &str, style: &str) -> Result<Vec<u8>, NoMemory>
        ensures markup { IfOk result (λ page. IsHtmlPage page.items) }
        ensures page { IfOk result
            (λ page. option_map (page_text title.now style.now) self ≡ Some page.items) }
    {
        let Html { alloc, bytes } = self;
        match bytes {
            Some(body) => page_of(alloc, title, style, &body),
            None => Err(NoMemory),
        }
    }
}
