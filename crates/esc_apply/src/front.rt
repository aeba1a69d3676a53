//! The steps of a chain, and what two chains have in common.

ghost use Rattle.std.specs.Prelude.{◌≡◌};
ghost use Rattle.esc_apply.specs.Front.{IsCommonFront, common_front};

use esc_envelope::Place;

/// A step of a chain.
#[derive(Clone, Copy, Debug, PartialEq, Eq)]
pub struct Step {
    /// The index of the step's row in the manifest, from 0.
    pub row: usize,
    pub place: Place,
    /// The revision: how often the deposit was generated again, 0 to 999,999.
    pub resend: u32,
}

/// The number of steps that two chains have in common at their beginning, by place and resend.
/// Doesn't allocate.
pub fn common_front(old: &[Step], new: &[Step]) -> usize
    ensures front { result ≡ common_front old.now new.now }
    ensures longest { IsCommonFront old.now new.now result }
{
    same_steps(old, new)
}

// The number of equal pairs of steps, from the first on up to the first pair that differs.
fn same_steps(old: &[Step], new: &[Step]) -> usize
    ensures { result ≡ common_front old.now new.now }
{
    old.iter()
        .zip(new)
        .take_while(|(a, b)| a.place == b.place && a.resend == b.resend)
        .count()
}
