//! The elements of a page.

/// An element (HTML Standard, section 4; SVG 2 for those of a picture).
#[derive(Clone, Copy, Debug, PartialEq, Eq)]
pub enum Tag {
    Header,
    Main,
    Footer,
    Section,
    /// A heading of the first level.
    H1,
    H2,
    H3,
    Paragraph,
    /// `div`.
    Block,
    Span,
    Strong,
    /// `ul`.
    Points,
    /// `li`.
    Point,
    Table,
    Caption,
    /// `thead`.
    TableHead,
    /// `tbody`.
    TableBody,
    /// `tr`.
    Row,
    /// `th`.
    Heading,
    /// `td`.
    Cell,
    /// `svg`.
    Picture,
    /// `defs`: shapes that are drawn where they are used.
    Shapes,
    Path,
    Circle,
    Line,
    /// `rect`.
    Bar,
    /// `text`.
    Label,
    /// `use`.
    Use,
    /// `title`: what is said of a shape.
    Title,
}

impl Tag {
    ghost use Rattle.std.specs.Prelude.{◌≡◌};
    ghost use Rattle.esc_html.specs.Names.{tag_name};

    /// The name of the element.
    pub(crate) fn name(self) -> &'static str
        ensures { result.now ≡ tag_name self }
    {
        match self {
            Tag::Header => "header",
            Tag::Main => "main",
            Tag::Footer => "footer",
            Tag::Section => "section",
            Tag::H1 => "h1",
            Tag::H2 => "h2",
            Tag::H3 => "h3",
            Tag::Paragraph => "p",
            Tag::Block => "div",
            Tag::Span => "span",
            Tag::Strong => "strong",
            Tag::Points => "ul",
            Tag::Point => "li",
            Tag::Table => "table",
            Tag::Caption => "caption",
            Tag::TableHead => "thead",
            Tag::TableBody => "tbody",
            Tag::Row => "tr",
            Tag::Heading => "th",
            Tag::Cell => "td",
            Tag::Picture => "svg",
            Tag::Shapes => "defs",
            Tag::Path => "path",
            Tag::Circle => "circle",
            Tag::Line => "line",
            Tag::Bar => "rect",
            Tag::Label => "text",
            Tag::Use => "use",
            Tag::Title => "title",
        }
    }
}
