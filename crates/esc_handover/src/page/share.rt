//! Parts of a whole.

ghost use Rattle.std.specs.Prelude.{◌≡◌, ◌≤◌};
ghost use Rattle.esc_handover.specs.Picture.{share};

/// A part of a whole in thousandths, rounded down; all of it where the part is greater.
pub(crate) fn share_of(part: u64, whole: u64) -> u32
    ensures share { result ≡ share part whole }
    ensures inside { result ≤ 1000 }
{
    if whole == 0 {
        return 0;
    }
    (u128::from(part.min(whole)) * 1000 / u128::from(whole)) as u32
}
