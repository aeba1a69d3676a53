//! A section of a bundle.

/// A named section. Both parts are slices of the bundle's bytes: the lifetime says that nothing is
/// copied, and contracts speak of the bytes alone.
#[derive(Clone, Copy, Debug)]
pub struct Section<'a> {
    /// 1 to 32 of `a-z 0-9 . _ -`.
    pub name: &'a str,
    /// At most 16,777,216 bytes.
    pub bytes: &'a [u8],
}
