//! Pages of HTML, of which each text is escaped.
//!
//! # In and out
//!
//! A page is put together from elements ([`Tag`]) with attributes ([`Attribute`], [`Value`]), from
//! texts and from numbers. Each piece is an [`Html`], which is moved into the one around it. Out
//! comes the page as bytes, or [`NoMemory`](esc_bundle::NoMemory): an `Html` remembers that memory
//! was refused, so that only the last call is asked for it.
//!
//! ```text
//! let key = Html::new(alloc).text("<a & b>");
//! let cell = Html::new(alloc).element(Tag::Cell, &[(Attribute::Class, Value::Text("key"))], key);
//! let page = cell.into_page("Keys", "td{color:red}")?;
//! // .. <body><td class="key">&lt;a &amp; b&gt;</td></body> ..
//! ```
//!
//! # What the contracts mean
//!
//! `specs/Markup.antt` says what markup is: a tree of elements and texts, and how it is written.
//! Each `Html` is the text of such a tree, and so is the body of each page ([`Html::into_page`]):
//! no text and no value of an attribute ends where it stands, or begins an element. The elements
//! and attributes are those of `specs/Names.antt`. None of them runs or loads anything: there is no
//! `script`, no `src` and no `style` among them, and a `href` leads to a place on the page.
//!
//! `specs/Escape.antt` says how a text is escaped, and how a page is read: the five signs `<`, `>`,
//! `&`, `"` and `'` stand for themselves nowhere, and a reference for the sign of its name. By
//! [`escaped_texts_are_read`] each text is read as what it was.
//!
//! That a browser reads a page so is the HTML Standard's word, and tested.
#![tactic(auto)]

mod attribute;
mod escape;
mod html;
mod laws;
mod tag;
mod value;
mod writing;

pub use attribute::Attribute;
pub use html::Html;
pub use laws::escaped_texts_are_read;
pub use tag::Tag;
pub use value::Value;
