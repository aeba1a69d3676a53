//! A body that arrived, with its digest and its sender's number.

ghost use Rattle.std.specs.Prelude.{◌≡◌};
ghost use Rattle.sha2.specs.Sha256.{sha256};

use esc_store::Number;

/// A body with its digest.
#[derive(Clone, Copy)]
pub(crate) struct Content<'b> {
    pub(crate) digest: [u8; 32],
    pub(crate) body: &'b [u8],
    ghost is_digest: { digest ≡ sha256 body.now },
}

/// A body that arrived under a number.
#[derive(Drop)]
pub(crate) struct Delivery<'a, 'n, 'b> {
    pub(crate) number: &'a Number<'n>,
    pub(crate) content: Content<'b>,
}
