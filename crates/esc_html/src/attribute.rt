//! The attributes of elements.

/// An attribute (HTML Standard, section 3.2.6; WAI-ARIA 1.2; SVG 2 for those of a picture).
#[derive(Clone, Copy, Debug, PartialEq, Eq)]
pub enum Attribute {
    Id,
    Class,
    Scope,
    Role,
    /// `aria-label`.
    Label,
    /// `aria-hidden`.
    Hidden,
    /// `tabindex`.
    Stop,
    Width,
    Height,
    X,
    Y,
    X1,
    Y1,
    X2,
    Y2,
    /// `r`.
    Radius,
    /// `d`.
    Drawing,
    /// `href` to the element on the page that has this id.
    Reference,
}

impl Attribute {
    ghost use Rattle.std.specs.Prelude.{◌≡◌};
    ghost use Rattle.esc_html.specs.Names.{attribute_front};

    /// What stands before the value.
    pub(crate) fn front(self) -> &'static str
        ensures { result.now ≡ attribute_front self }
    {
        match self {
            Attribute::Id => " id=\"",
            Attribute::Class => " class=\"",
            Attribute::Scope => " scope=\"",
            Attribute::Role => " role=\"",
            Attribute::Label => " aria-label=\"",
            Attribute::Hidden => " aria-hidden=\"",
            Attribute::Stop => " tabindex=\"",
            Attribute::Width => " width=\"",
            Attribute::Height => " height=\"",
            Attribute::X => " x=\"",
            Attribute::Y => " y=\"",
            Attribute::X1 => " x1=\"",
            Attribute::Y1 => " y1=\"",
            Attribute::X2 => " x2=\"",
            Attribute::Y2 => " y2=\"",
            Attribute::Radius => " r=\"",
            Attribute::Drawing => " d=\"",
            Attribute::Reference => " href=\"#",
        }
    }
}
