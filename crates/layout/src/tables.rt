// The layout of a store in numbers: offsets and lengths in bytes, limits in rows. Where the tables lie, and how long
// their rows are, stands here for the code and in specs/Layout.antt for the specs, and nowhere else; where a word lies
// within its row stands where the row is read and written. docs/STORE.md says what they are for. Tables of rows, counts
// and numbers of rows are all that a store has, since the host lends its bytes and there is no heap.

// What is absent, and the number of the empty text.
pub const ABSENT: u32 = 4294967295;

// ---- limits
pub const EXPR_LIMIT: u32 = 16384;

pub const ITEM_LIMIT: u32 = 32768;

pub const NAME_LIMIT: u32 = 4096;

pub const DIAGNOSTIC_LIMIT: u32 = 32768;

pub const SCOPE_LIMIT: u32 = 4096;

pub const REFERENCE_LIMIT: u32 = 16384;

pub const WAITING_LIMIT: u32 = 16384;

pub const SET_LIMIT: u32 = 4096;

pub const ENTRY_LIMIT: u32 = 4096;

pub const NODE_LIMIT: u32 = 4096;

pub const KID_LIMIT: u32 = 16384;

// In bytes, with the length before each text.
pub const TEXT_LIMIT: u32 = 786432;

// The change room (document 01's term).
pub const ROOM_LIMIT: u32 = 8192;

// The most bytes of texts that a load leaves in use: a changed text takes at most five for each byte of the room.
pub const LOADED_TEXT_LIMIT: usize = (TEXT_LIMIT - 5 * ROOM_LIMIT) as usize;

// The most bytes of texts that a sheet brings in. A byte of text takes two digits in the sheet, and the lines of a node
// have more than eight bytes besides. So the texts of a sheet of 1,048,576 bytes, with the four bytes of each one's
// length, take at most half of that.
pub const SHEET_TEXT_LIMIT: usize = 524288;

// ---- rows
// First item, sort, a, b, c.
pub const EXPR_ROW: usize = 20;

// Kind, from, to.
pub const POINTER_ROW: usize = 12;

// Tag, a, b.
pub const ITEM_ROW: usize = 12;

// Text, kind.
pub const NAME_ROW: usize = 8;

// Key, first pointer, second pointer.
pub const DIAGNOSTIC_ROW: usize = 28;

// Scope or 0, answer.
pub const USE_ROW: usize = 8;

// First entered name, parent or 0, With or 0.
pub const SCOPE_ROW: usize = 12;

// Pointer, kind of names.
pub const SET_ROW: usize = 16;

// Tag, set, key, name, nested set, value's sort, value; one word is free.
pub const ENTRY_ROW: usize = 32;

// First kid, kind, from, to, flag, text.
pub const NODE_ROW: usize = 24;

// ---- the header: counts, and single numbers
pub const EXPR_COUNT: usize = 0;

pub const NAME_COUNT: usize = 4;

pub const DIAGNOSTIC_COUNT: usize = 8;

pub const LOST_COUNT: usize = 12;

pub const ENTRY_PLACE: usize = 16;

pub const SCOPE_COUNT: usize = 20;

pub const SPENT_PLACE: usize = 24;

// How many bytes of texts are in use.
pub const TEXTS_PLACE: usize = 28;

pub const WAITING_COUNT: usize = 32;

pub const SET_COUNT: usize = 36;

pub const ENTRY_COUNT: usize = 40;

// ---- the tables: each begins where the one before it ends
// One row more than there can be expressions, for the end of the last one's items.
pub const EXPRS: usize = 64;

pub const EXPR_POINTERS: usize = EXPRS + EXPR_ROW * (EXPR_LIMIT as usize + 1);

pub const ITEMS: usize = EXPR_POINTERS + POINTER_ROW * EXPR_LIMIT as usize;

pub const NAMES: usize = ITEMS + ITEM_ROW * ITEM_LIMIT as usize;

pub const NAME_POINTERS: usize = NAMES + NAME_ROW * NAME_LIMIT as usize;

pub const DIAGNOSTICS: usize = NAME_POINTERS + POINTER_ROW * NAME_LIMIT as usize;

// The lost list (document 01's term): pointers.
pub const LOST: usize = DIAGNOSTICS + DIAGNOSTIC_ROW * DIAGNOSTIC_LIMIT as usize;

// By the expression's number.
pub const USES: usize = LOST + POINTER_ROW * DIAGNOSTIC_LIMIT as usize;

// One row more, for the end of the last one's names.
pub const SCOPES: usize = USES + USE_ROW * EXPR_LIMIT as usize;

pub const ENTERED: usize = SCOPES + SCOPE_ROW * (SCOPE_LIMIT as usize + 1);

// By the name's number: its first reference; one more, for the end of the last one's.
pub const FIRSTS: usize = ENTERED + 4 * NAME_LIMIT as usize;

pub const REFERENCES: usize = FIRSTS + 4 * (NAME_LIMIT as usize + 1);

// Items that wait for their expression.
pub const WAITING: usize = REFERENCES + 4 * REFERENCE_LIMIT as usize;

// The same bytes once nothing waits, while kept references are listed: of each expression the next Reference that means
// the same name, and of each name its first.
pub const NEXTS: usize = WAITING;

pub const HEADS: usize = NEXTS + 4 * EXPR_LIMIT as usize;

pub const SETS: usize = WAITING + ITEM_ROW * WAITING_LIMIT as usize;

pub const ENTRIES: usize = SETS + SET_ROW * SET_LIMIT as usize;

// Entries in the order of their sets and keys, a word each.
pub const RUN: usize = ENTRIES + ENTRY_ROW * ENTRY_LIMIT as usize;

// What a load brings in first and then only reads: the count of nodes, the nodes, their kids, the texts.
pub const NODE_COUNT: usize = RUN + 4 * ENTRY_LIMIT as usize;

// One row more, for the end of the last one's kids.
pub const NODES: usize = NODE_COUNT + 4;

pub const KIDS: usize = NODES + NODE_ROW * (NODE_LIMIT as usize + 1);

pub const TEXTS: usize = KIDS + 4 * KID_LIMIT as usize;

pub const STORE_BYTES: usize = TEXTS + TEXT_LIMIT as usize;
