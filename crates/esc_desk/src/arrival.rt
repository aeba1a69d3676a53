//! An arrival: a body under its sender's number.

use esc_store::Number;
use std::marker::Model;

/// A body that arrived, under a number that its sender gave.
#[derive(Drop)]
pub struct Arrival<'a> {
    /// The number that its sender gave it: 1 to 64 of `A-Z a-z 0-9 . _ -`.
    pub number: Number<'a>,
    /// The bytes that came, of any length; over 16,777,216 of them are no bundle (U4).
    pub body: &'a [u8],
}

impl<'a> Model for Arrival<'a> {
    ghost use Rattle.esc_events.specs.ArrivalValue.{ArrivalValue};

    ghost Value = { ArrivalValue };

    ghost view = { λ a. record { number = a.number; body = a.body.now } };
}
