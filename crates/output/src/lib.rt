// What a program prints: the first bytes of an array. In a contract it is the list of these bytes.
#![tactic(auto)]

ghost use Rattle.std.specs.Prelude.{◌≡◌, ◌≤◌, ℕ, List, length, take};

use std::marker::Model;

// A length beside the array, since what is printed is written into parts of a whole array: a vector that grows would be filled first.
#[derive(Drop)]
pub struct Output<const N: usize> {
    bytes: [u8; N],
    length: usize,
}

impl<const N: usize> Model for Output<N> {
    ghost Value = { List ℕ };

    ghost view = { λ o. take o.length o.bytes };

    ghost invariant = { λ o. o.length ≤ N };
}

impl<const N: usize> Output<N> {
    // The first `length` bytes.
    pub fn new(bytes: [u8; N], length: usize) -> Self
        requires { length ≤ N }
        ensures { result ≡ take length bytes.entry }
    {
        Output { bytes, length }
    }

    pub fn as_slice(&self) -> &[u8]
        ensures bytes { result.now ≡ self.now }
        ensures inside { length result.now ≤ N }
    {
        &self.bytes[..self.length]
    }
}
