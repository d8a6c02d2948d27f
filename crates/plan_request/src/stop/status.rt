//! The statuses with which the program ends.

/// What was asked for is done, and its report was put.
pub const DONE: u8 = 0;

const _: () = prove!(DONE == 0);

/// A search ended, and its report was put, with a wider interval than was asked for.
pub const GAP_LEFT: u8 = 1;

const _: () = prove!(GAP_LEFT == 1);

/// The words ask for nothing.
pub const BAD_WORDS: u8 = 2;

const _: () = prove!(BAD_WORDS == 2);

/// A file was not read.
pub const READ_FAILED: u8 = 3;

const _: () = prove!(READ_FAILED == 3);

/// The output, or a certificate, was not written.
pub const WRITE_FAILED: u8 = 4;

const _: () = prove!(WRITE_FAILED == 4);

/// Want of memory.
pub const NO_MEMORY: u8 = 5;

const _: () = prove!(NO_MEMORY == 5);

/// The texts are outside the language.
pub const REFUSED: u8 = 6;

const _: () = prove!(REFUSED == 6);

/// The bytes are no text of a balanced certificate.
pub const NOT_ACCEPTED: u8 = 7;

const _: () = prove!(NOT_ACCEPTED == 7);

/// A quantity of the texts is above its limit.
pub const LIMIT: u8 = 8;

const _: () = prove!(LIMIT == 8);
