// The flat layout of a record, its answers, and nothing else: this file is the one place that defines them. The Rust crate includes it as it stands,
// and the C header is made from it. A record is RECORD_WORDS words of 64 bits, one a field; what a word stays below is said beside it. Words that a write
// does not look at may be any number.

// ---- the base, in every record

// 0 pan1, 1 pic1, 2 txt1, 3 wnd1, 4 ali1
pub const KIND: usize = 0;

// eight words, 0 or 1, in the order of PaneFlags
pub const PANE_FLAGS: usize = 1;

// x and y, then the parent's x and y: below 3 each
pub const POSITION: usize = 9;

// below 256
pub const ALPHA: usize = 13;

// three words, 0 or 1
pub const FLAG_EX: usize = 14;

// below 256; a write refuses those above 31
pub const RESERVE0: usize = 17;

// how many of the next words are the name; a write refuses more than 24
pub const NAME_COUNT: usize = 18;

// 24 bytes, below 256 each, zeros after the count
pub const NAME: usize = 19;

// how many of the next words are the user name; a write refuses more than 8
pub const USER_COUNT: usize = 43;

// 8 bytes, below 256 each, zeros after the count
pub const USER: usize = 44;

// x, y, z: the bits of a float in this word and every word of a float, below 2^32
pub const TRANSLATION: usize = 52;

// x, y, z
pub const ROTATION: usize = 55;

// x, y
pub const SCALE: usize = 58;

// width, height
pub const SIZE: usize = 60;

// Where the words of the kind begin. Words after those of the kind keep their contents in a read, and are not looked at by a write.
pub const OWN: usize = 62;

// ---- pic1

// four corners of r, g, b, a, below 256 each: top left, top right, bottom left, bottom right
pub const PICTURE_COLORS: usize = 62;

// below 2^16
pub const PICTURE_MATERIAL: usize = 78;

// the count of a read, below 256; a write does not look at it, and takes its count from the lent list
pub const PICTURE_QUADS: usize = 79;

// 0 or 1
pub const SHAPE_PRESENT: usize = 80;

// below 2^32; 0 where it is absent
pub const SHAPE_INDEX: usize = 81;

// ---- txt1

// below 2^16
pub const TEXT_BUFFER_SIZE: usize = 62;

// below 2^16
pub const TEXT_LENGTH: usize = 63;

// below 2^16
pub const TEXT_MATERIAL: usize = 64;

// below 2^16
pub const FONT: usize = 65;

// horizontal, vertical: below 3 each
pub const ORIGIN: usize = 66;

// below 4
pub const TEXT_ALIGNMENT: usize = 68;

// fourteen words, 0 or 1, in the order of TextPaneFlags
pub const TEXT_FLAGS: usize = 69;

// 0 size, 1 scale
pub const MEASURE_KIND: usize = 83;

// two floats
pub const MEASURE: usize = 84;

// a float
pub const ITALIC_TILT: usize = 86;

// r, g, b, a
pub const FONT_TOP_COLOR: usize = 87;

// r, g, b, a
pub const FONT_BOTTOM_COLOR: usize = 91;

// a float
pub const CHARACTER_SPACE: usize = 95;

// a float
pub const LINE_SPACE: usize = 96;

// x, y
pub const SHADOW_TRANSLATION: usize = 97;

// x, y
pub const SHADOW_SIZE: usize = 99;

// r, g, b, a
pub const SHADOW_TOP_COLOR: usize = 101;

// r, g, b, a
pub const SHADOW_BOTTOM_COLOR: usize = 105;

// a float
pub const SHADOW_ITALIC_TILT: usize = 109;

// 0 or 1
pub const TEXT_PRESENT: usize = 110;

// 0 or 1
pub const LABEL_PRESENT: usize = 111;

// where the label stands in the strip that was read; 0 where it is absent; a write does not look at it
pub const LABEL_PLACE: usize = 112;

// how many bytes it has without its NUL; 0 where it is absent; a write does not look at it
pub const LABEL_LENGTH: usize = 113;

// 0 or 1
pub const LINES_PRESENT: usize = 114;

// the count of a read, below 256, and 0 where the table is absent; a write does not look at it, and takes its count from the lent list
pub const LINES_COUNT: usize = 115;

// ---- wnd1

// left, right, top, bottom: the 16 bits of an i16, below 2^16
pub const INFLATION: usize = 62;

// left, right, top, bottom: likewise
pub const FRAME_SIZE: usize = 66;

// left corner material, vertex colour for all: 0 or 1
pub const WINDOW_FLAGS: usize = 70;

// below 3
pub const WINDOW_KIND: usize = 72;

// 0 or 1
pub const NOT_DRAW_CONTENT: usize = 73;

// the count of a read, below 256; a write does not look at it, and takes its count from the lent list
pub const FRAMES_COUNT: usize = 74;

// four corners of r, g, b, a
pub const CONTENT_COLORS: usize = 75;

// below 2^16
pub const CONTENT_MATERIAL: usize = 91;

// the count of a read, below 256; a write does not look at it, and takes its count from the lent list
pub const CONTENT_QUADS: usize = 92;

// ---- ali1

// below 2^32
pub const DIRECTION: usize = 62;

// a float
pub const DEFAULT_MARGIN: usize = 63;

// 0 or 1
pub const IS_ALIGN_LAST_PANE: usize = 64;

// 0 or 1
pub const IS_VERTICAL_ALIGNMENT: usize = 65;

// How many words a record has.
pub const RECORD_WORDS: usize = 116;

// ---- the byte order of a call: how a number of two or four bytes stands in the bytes

// The lowest byte first.
pub const LITTLE: u64 = 0;

// The highest byte first.
pub const BIG: u64 = 1;

// ---- what a call returns, and what it puts into the answer's words

// No section is left. The answer's words: 0, 0, 0.
pub const END: u64 = 0;

// A section of another kind. The next section's place, 0, 0.
pub const PASSED: u64 = 1;

// A pane, which the record's words hold. The place after the body, the next section's place (0 of a body call), the reach:
// the first place past all bytes that the read of the body looked at.
pub const PANE: u64 = 2;

// Written. The end place, 0, 0.
pub const WRITTEN: u64 = 3;

// Refused. The number, document 01's or one that document 02 adds, figure a, figure b.
pub const REFUSED: u64 = 4;

// The record's words are fewer than RECORD_WORDS: RECORD_WORDS, 0, 0. Nothing was read or written.
pub const SHORT_RECORD: u64 = 5;

// A word of the record is not below its bound: the index of the first such word, 0, 0. Nothing was read or written.
pub const BAD_WORD: u64 = 6;

// The answer's words are fewer than ANSWER_WORDS, or those for the counts fewer than FILLED_WORDS. Nothing was read or written.
pub const SHORT_ANSWER: u64 = 7;

// A label, or a caption from the strip: 0, its place, its length. A caption from the lent one: 1, 0, its length.
pub const PART: u64 = 8;

// The byte order is neither LITTLE nor BIG: its number, 0, 0. Nothing was read or written.
pub const BAD_ORDER: u64 = 9;

// How many numbers of the quads, the units, the lines and the frames a record counts: four words.
pub const FILLED: u64 = 10;

// How many words an answer has.
pub const ANSWER_WORDS: usize = 3;

// How many words the counts of the four lists have.
pub const FILLED_WORDS: usize = 4;
