//! Places in the texts that are read.

ghost use Rattle.std.specs.Prelude.{◌≡◌};
ghost use Rattle.ppddl_model.specs.declared.refusal.TextRefusal.TheVariants.{At};

use ppddl_model::{TextCode, TextRefusal};

/// A line of a text: the number of the text among those that are read, and the line, both from 1.
#[derive(Clone, Copy, Debug, PartialEq, Eq)]
pub struct Place {
    pub file: u8,
    pub line: u32,
}

impl Place {
    /// The refusal of what stands here.
    pub fn refusal(self, code: TextCode) -> TextRefusal
        ensures { result ≡ At code self.file self.line }
    {
        TextRefusal::At {
            code,
            file: self.file,
            line: self.line,
        }
    }
}
