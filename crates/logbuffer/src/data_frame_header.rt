// The constants of a data frame's header: its length, its types, and where its fields lie. The layout is drawn in the definitions
// (specs/DataFrameHeader.antt of model). Read header next.

pub const HEADER_LENGTH: usize = 32;

pub const HDR_TYPE_PAD: usize = 0;

pub const HDR_TYPE_DATA: usize = 1;

pub const VERSION_FIELD_OFFSET: usize = 4;

pub const FLAGS_FIELD_OFFSET: usize = 5;

pub const TYPE_FIELD_OFFSET: usize = 6;

pub const TERM_OFFSET_FIELD_OFFSET: usize = 8;

pub const SESSION_ID_FIELD_OFFSET: usize = 12;

pub const STREAM_ID_FIELD_OFFSET: usize = 16;

pub const TERM_ID_FIELD_OFFSET: usize = 20;

pub const RESERVED_VALUE_FIELD_OFFSET: usize = 24;
