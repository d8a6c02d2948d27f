//! What one step notes. No value of these types is made: they stand in proofs alone.

/// A number that was seen of an id: its lower number, or its upper word.
pub struct Number {
    /// The id.
    pub id: u64,
    /// The number.
    pub number: u64,
}

/// A word of the state of a published id.
pub struct StateWord {
    /// The id.
    pub id: u64,
    /// The place of the word among those of the state.
    pub place: u64,
    /// The word.
    pub word: u64,
}

/// A bucket and the id that it holds.
pub struct Held {
    /// The bucket.
    pub bucket: u64,
    /// The id.
    pub id: u64,
}

/// A word that was written of the state of a spare.
pub struct Written {
    /// The place of the word among those of the state.
    pub place: u64,
    /// The word.
    pub word: u64,
}

/// A load of a number.
pub enum Load {
    /// The lower number of an id.
    Lower { id: u64, number: u64 },
    /// The upper word of an id.
    Upper { id: u64, word: u64 },
}

/// A look that found nothing.
pub enum Look {
    /// All ids were given out.
    End,
    /// The bucket was empty.
    Empty(u64),
}
