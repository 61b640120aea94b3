// The pins of a display's list, packed: the first six, those of O8 to O15, and those of O16 to O18. A pin's number where it is lit is 2, of a pin
// that carries none 4.
use crate::{PackedPins, PackedRow};

// a1 a2 b c d1 d2
const SIX_OF_SIXTEEN: PackedPins = PackedPins {
    lit: 0x020202020202,
    low: 0,
    high: 0x80 // a1
        | 0x40 << 8 // a2
        | 0x20 << 16 // b
        | 0x10 << 24 // c
        | 0x08 << 32 // d1
        | 0x04 << 40, // d2
    point: 0,
};

// a none b c d none
const SIX_OF_FOURTEEN: PackedPins = PackedPins {
    lit: 0x040202020402,
    low: 0,
    high: 0x80 // a
        | 0x20 << 16 // b
        | 0x10 << 24 // c
        | 0x08 << 32, // d
    point: 0,
};

// 1a none 1b 1c 1d 1dp
const SIX_OF_PAIR: PackedPins = PackedPins {
    lit: 0x020202020402,
    low: 0x40 // 1a
        | 0x20 << 16 // 1b
        | 0x10 << 24 // 1c
        | 0x08 << 32 // 1d
        | 0x80 << 40, // 1dp
    high: 0,
    point: 0,
};

// e f g1 g2 h i j k of a 14- or 16-segment digit
const MIDDLE_OF_WORD: PackedPins = PackedPins {
    lit: 0x0202020202020202,
    low: 0x80 << 16 // g1
        | 0x40 << 24 // g2
        | 0x20 << 32 // h
        | 0x10 << 40 // i
        | 0x08 << 48 // j
        | 0x04 << 56, // k
    high: 0x02 // e
        | 0x01 << 8, // f
    point: 0,
};

// 1e 1f 1g 2a 2b 2c 2d 2e
const MIDDLE_OF_PAIR: PackedPins = PackedPins {
    lit: 0x0202020202020202,
    low: 0x04 // 1e
        | 0x02 << 8 // 1f
        | 0x01 << 16, // 1g
    high: 0x40 << 24 // 2a
        | 0x20 << 32 // 2b
        | 0x10 << 40 // 2c
        | 0x08 << 48 // 2d
        | 0x04 << 56, // 2e
    point: 0,
};

// l m dp
const LAST_OF_WORD: PackedPins = PackedPins {
    lit: 0x020202,
    low: 0x02 // l
        | 0x01 << 8, // m
    high: 0,
    point: 0x01 << 16, // dp
};

// 2f 2g 2dp
const LAST_OF_PAIR: PackedPins = PackedPins {
    lit: 0x020202,
    low: 0,
    high: 0x02 // 2f
        | 0x01 << 8 // 2g
        | 0x80 << 16, // 2dp
    point: 0,
};

// No pin is driven.
const NO_PINS: PackedPins = PackedPins {
    lit: 0,
    low: 0,
    high: 0,
    point: 0,
};

// The lists, and the row of a cathode above 7.
pub const SIXTEEN: PackedRow = PackedRow {
    first: SIX_OF_SIXTEEN,
    middle: MIDDLE_OF_WORD,
    last: LAST_OF_WORD,
};

pub const FOURTEEN: PackedRow = PackedRow {
    first: SIX_OF_FOURTEEN,
    middle: MIDDLE_OF_WORD,
    last: LAST_OF_WORD,
};

pub const PAIR: PackedRow = PackedRow {
    first: SIX_OF_PAIR,
    middle: MIDDLE_OF_PAIR,
    last: LAST_OF_PAIR,
};

pub const NONE: PackedRow = PackedRow {
    first: NO_PINS,
    middle: NO_PINS,
    last: NO_PINS,
};
