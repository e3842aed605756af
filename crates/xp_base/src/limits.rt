//! The limits on what is read and made.
ghost use Rattle.std.specs.Prelude.{◌≡◌};

/// The most bytes of a script.
pub const SCRIPT_LIMIT: u64 = 1_048_576;

/// The most bytes of a catalogue.
pub const CATALOG_LIMIT: u64 = 4_194_304;

/// The most records of a catalogue.
pub const RECORD_LIMIT: u32 = 20_000;

/// The most bytes of a rows file.
pub const ROWS_LIMIT: u64 = 16_777_216;

/// The most rows of a rows file, its header not counted.
pub const ROW_LIMIT: u32 = 100_000;

/// The most columns of a rows file.
pub const COLUMN_LIMIT: u32 = 200;

/// The most tokens of a statement, its end not counted.
pub const TOKEN_LIMIT: u32 = 20_000;

/// The greatest depth of a statement.
pub const DEPTH_LIMIT: u32 = 200;

/// The most arguments of a call.
pub const ARGUMENT_LIMIT: u32 = 100;

/// The most nodes that the trees of a statement have together.
pub const NODE_LIMIT: u32 = 20_000;

/// The most bytes of a value.
pub const VALUE_LIMIT: u32 = 1_048_576;

/// The most elements of an array.
pub const ELEMENT_LIMIT: u32 = 65_536;

/// The most digits, and the most decimals, of a numeric.
pub const DIGIT_LIMIT: u8 = 38;

/// A law: what each limit is, in numbers.
pub fn limits_are_these()
    ensures script { SCRIPT_LIMIT ≡ 1048576 }
    ensures catalog { CATALOG_LIMIT ≡ 4194304 }
    ensures records { RECORD_LIMIT ≡ 20000 }
    ensures rows_file { ROWS_LIMIT ≡ 16777216 }
    ensures rows { ROW_LIMIT ≡ 100000 }
    ensures columns { COLUMN_LIMIT ≡ 200 }
    ensures tokens { TOKEN_LIMIT ≡ 20000 }
    ensures depth { DEPTH_LIMIT ≡ 200 }
    ensures arguments { ARGUMENT_LIMIT ≡ 100 }
    ensures nodes { NODE_LIMIT ≡ 20000 }
    ensures value { VALUE_LIMIT ≡ 1048576 }
    ensures elements { ELEMENT_LIMIT ≡ 65536 }
    ensures digits { DIGIT_LIMIT ≡ 38 }
{}
