//! What a command prints.

/// What a command prints, and the program's status.
#[derive(Drop)]
pub struct Answer {
    pub text: Vec<u8>,
    pub status: u8,
}
