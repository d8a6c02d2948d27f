//! An open action of a state, as it is stored.

ghost use Rattle.std.specs.Prelude.{◌≡◌, IfSome};
ghost use Rattle.kept_transitions.specs.Unpacked.{unpacked, HasPlace};

use crate::unpacked_action::UnpackedAction;

/// How many offsets there are.
const OFFSETS: u32 = 4_096;

/// The places of so many kinds can be stored beside an offset.
pub(crate) const MOST_KINDS: u32 = 1 << 20;

/// An open action of a state in four bytes: the place of its kind times 4,096, and its offset, which is how far its
/// first id stands behind the base of its block.
#[derive(Clone, Copy, Drop)]
pub(crate) struct StoredAction {
    word: u32,
}

impl StoredAction {
    /// An action in a block with this base. None: the place of its kind or its offset is too great, or its first id
    /// stands before the base.
    pub(crate) fn pack(action: UnpackedAction, base: u32) -> Option<Self>
        ensures packed { IfSome result (λ stored. unpacked base stored ≡ action) }
        ensures place { HasPlace action }
    {
        let UnpackedAction { kind, first } = action;
        if kind >= MOST_KINDS || first < base || first - base >= OFFSETS {
            return None;
        }
        let offset = first - base;
        Some(StoredAction {
            word: kind * OFFSETS + offset,
        })
    }

    /// The action that is stored so in a block with this base.
    pub(crate) fn unpack(self, base: u32) -> UnpackedAction
        requires { HasPlace (unpacked base self) }
        ensures { result ≡ unpacked base self }
    {
        UnpackedAction {
            kind: self.word / OFFSETS,
            first: base + self.word % OFFSETS,
        }
    }
}
