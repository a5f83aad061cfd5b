// Document 01, "The file": the bytes that a file and a block begin with, each four as the number that they are.

// A file's first four, 01 A8 9E D6.
pub const FILE_SIGNATURE: u32 = 0xD69E_A801;

// The four after them: 31 01 00 00, which encoding writes.
pub const FILE_SIGNATURE_31: u32 = 0x0000_0131;

// Or 30 01 00 00, which is read as well.
pub const FILE_SIGNATURE_30: u32 = 0x0000_0130;

// A block's first four, 16 0C 9A 3E.
pub const BLOCK_SIGNATURE: u32 = 0x3E9A_0C16;
