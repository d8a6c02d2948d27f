//! Bytes in memory that was taken before.

ghost use Rattle.std.specs.Prelude.{◌≡◌, ◌≤◌, ◌<◌, ◌+◌, ◌++◌, [], ◌∷◌, length, IfOk};
ghost use Rattle.ppddl_lex.specs.Words.{lowered};

use std::alloc::{AllocError, Global};
use std::marker::Model;

/// Bytes one behind another, in memory that was taken when the buffer was made. Contracts see the bytes and
/// for how many there is room.
#[derive(Drop)]
pub(crate) struct ByteBuffer {
    bytes: Vec<u8>,
    room: usize,
}

impl Model for ByteBuffer {
    ghost use Rattle.std.specs.Prelude.{◌≤◌, length, vec_capacity};
    ghost use Rattle.policy_server.specs.Parts.{Room};

    ghost Value = { Room };

    ghost view = { λ b. record { bytes = b.bytes.items; room = b.room } };

    ghost invariant = { λ b. (length b.bytes.items ≤ b.room) × (b.room ≤ vec_capacity b.bytes) };
}

impl ByteBuffer {
    /// A buffer with room for so many bytes.
    pub(crate) fn make(alloc: Global, room: usize) -> Result<Self, AllocError>
        ensures { IfOk result (λ buffer. buffer ≡ record { bytes = []; room = room }) }
    {
        let bytes = Vec::with_capacity(alloc, room)?;
        Ok(ByteBuffer { bytes, room })
    }

    /// The bytes.
    pub(crate) fn bytes(&self) -> &[u8]
        ensures value { result.now ≡ self.now.bytes }
        ensures within { length self.now.bytes ≤ self.now.room }
    {
        &self.bytes
    }

    /// Drops all bytes.
    pub(crate) fn clear(&mut self)
        ensures bytes { self.new.bytes ≡ [] }
        ensures long { length self.new.bytes ≡ 0 }
        ensures room { self.new.room ≡ self.old.room }
    {
        self.bytes.clear();
    }

    /// Puts a byte behind the others.
    pub(crate) fn push(&mut self, byte: u8)
        requires { length self.old.bytes < self.old.room }
        ensures bytes { self.new.bytes ≡ self.old.bytes ++ byte ∷ [] }
        ensures long { length self.new.bytes ≡ length self.old.bytes + 1 }
        ensures room { self.new.room ≡ self.old.room }
    {
        match self.bytes.push(byte) {
            Ok(()) => {}
            Err(_) => unreachable!(),
        }
    }

    /// Puts bytes behind the others.
    pub(crate) fn extend(&mut self, bytes: &[u8])
        requires { length self.old.bytes + length bytes.now ≤ self.old.room }
        ensures bytes { self.new.bytes ≡ self.old.bytes ++ bytes.now }
        ensures long { length self.new.bytes ≡ length self.old.bytes + length bytes.now }
        ensures room { self.new.room ≡ self.old.room }
    {
        match self.bytes.extend_from_slice(bytes) {
            Ok(()) => {}
            Err(AllocError) => unreachable!(),
        }
    }

    /// Puts bytes behind the others, in small letters.
    #[tactic(auto, using(crate::proofs::Spelled::lowered_more))]
    pub(crate) fn extend_lowered(&mut self, bytes: &[u8])
        requires { length self.old.bytes + length bytes.now ≤ self.old.room }
        ensures bytes { self.new.bytes ≡ self.old.bytes ++ lowered bytes.now }
        ensures long { length self.new.bytes ≡ length self.old.bytes + length bytes.now }
        ensures room { self.new.room ≡ self.old.room }
    {
        for byte in bytes {
            self.push(byte.to_ascii_lowercase());
        }
    }
}
