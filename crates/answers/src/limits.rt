// The numbers of the document that code names: how large a map, a pyramid and a record may be, and what stands where there is nothing.

// The largest n.
pub const MOST_DIMENSION: u8 = 4;

// The most rows: a_0 to a_4.
pub const MOST_ROWS: usize = 5;

// The largest N.
pub const MOST_DARTS: u16 = 4096;

// The most darts of a combinatorial map, each of which becomes two.
pub const PARTNER_DARTS: u16 = MOST_DARTS / 2;

// Room for a number of each dart.
pub const ROOM: usize = MOST_DARTS as usize;

// The most entries of a table: MOST_ROWS rows.
pub const MOST_ENTRIES: usize = MOST_ROWS * ROOM;

// The largest h.
pub const MOST_HEIGHT: u8 = 32;

// The most levels: 0 to MOST_HEIGHT.
pub const LEVELS: usize = MOST_HEIGHT as usize + 1;

// The bytes of the largest record: a header of 7, rows of two bytes an entry and Λ and Δ of one, each with 3 bytes before it.
pub const MOST_BYTES: usize = 7 + MOST_ROWS * (3 + 2 * ROOM) + 2 * (3 + ROOM);

// Every entry of a dart that is gone from an explicit level.
pub const ABSENT: u16 = 65535;

// In a mark row: the dart stays.
pub const STAY: u8 = 255;

// A contraction of dimension δ is the mark CONTRACTED + δ.
pub const CONTRACTED: u8 = 8;
