//! Whether a body that no row lists is parked.

/// What becomes of the body of an arrival that isn't stored for a row.
#[derive(Clone, Copy, Debug)]
pub enum Parking {
    /// Nothing: a row lists it, or a body is parked under its digest already.
    Needless,
    /// It is parked: no row lists it, none is parked under its digest, and fewer than 1,024 are.
    Free,
    /// It can't be parked, since 1,024 others are: the arrival is refused by `S5`.
    Crowded,
}
