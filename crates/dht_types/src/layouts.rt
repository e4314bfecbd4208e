//! The value of a layout on one brick, as a request carries it.

ghost use Rattle.std.specs.Prelude.{◌≡◌, length};

use std::marker::Model;

/// The value of GlusterFS's attribute `trusted.glusterfs.dht` of a directory on one brick: 16
/// bytes, kept in place, so that a request that carries one takes no memory. Contracts see it as
/// the list of its bytes.
#[derive(Clone, Copy)]
pub struct LayoutValue {
    bytes: [u8; 16],
}

impl Model for LayoutValue {
    ghost use Rattle.std.specs.Prelude.{ℕ, ◌≡◌, List, length};

    ghost Value = { List ℕ };

    ghost view = { λ v. v.bytes };

    ghost invariant = { λ v. length v.bytes ≡ 16 };

    ghost inverse = { λ xs. record { bytes = xs } };

    ghost inverse_ok = { λ v h. λ i. record { bytes = v.bytes } };
}

impl LayoutValue {
    /// The value of these bytes. It takes no memory.
    pub fn new(bytes: [u8; 16]) -> LayoutValue
        ensures { result ≡ bytes }
    {
        LayoutValue { bytes }
    }

    /// Its bytes.
    pub fn as_slice(&self) -> &[u8]
        ensures bytes { result.now ≡ self.now }
        ensures size { length self.now ≡ 16 }
    {
        &self.bytes
    }
}
