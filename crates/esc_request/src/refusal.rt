//! Why a request is refused.

/// Why a request is refused, whatever the store holds (this project's profile).
#[derive(Clone, Copy, Debug, PartialEq, Eq)]
pub enum Refusal {
    /// 400: the head or the length isn't valid, or the body is cut.
    BadRequest,
    /// 404: the path leads nowhere.
    NotFound,
    /// 405: the path takes PUT alone.
    PutOnly,
    /// 405: the path takes GET alone.
    GetOnly,
    /// 400 `N1`: the path's number isn't the number of an arrival.
    BadNumber,
    /// 411: the request doesn't state the length of its body.
    LengthRequired,
    /// 413: the body is over 16,777,216 bytes.
    TooLarge,
}
