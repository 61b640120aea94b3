// The segments that a digit's byte lights: the hex font, direct control, and glyph words from lent tables.
#![tactic(auto)]

ghost use Rattle.std.specs.Prelude.{◌≡◌, ◌<◌};
ghost use Rattle.glyphs.specs.Masks.{hex_segments, seven_segments, pair_segments, glyph_segments, SegmentBySegment};
ghost use Rattle.glyphs.specs.Tables.{GlyphTables};

// Table 11: a to g of a character are bits 6 to 0 of its byte.
const HEX_FONT: [u8; 16] = [
    0x7E, // 0: a b c d e f
    0x30, // 1: b c
    0x6D, // 2: a b d e g
    0x79, // 3: a b c d g
    0x33, // 4: b c f g
    0x5B, // 5: a c d f g
    0x5F, // 6: a c d e f g
    0x70, // 7: a b c
    0x7F, // 8: a b c d e f g
    0x7B, // 9: a b c d f g
    0x77, // A: a b c e f g
    0x1F, // B: c d e f g
    0x4E, // C: a d e f
    0x3D, // D: b c d e g
    0x4F, // E: a d e f g
    0x47, // F: a e f g
];

// The segments a to g of a hex digit as bits 6 to 0: none where D6 to D0 are 0010000.
fn hex_segments(byte: u8) -> u8
    ensures { result ≡ hex_segments byte }
{
    if byte % 128 == 16 {
        0
    } else {
        HEX_FONT[(byte % 16) as usize]
    }
}

// The segments dp a b c d e f g of a 7-segment digit as bits 7 to 0, in the hex font or as its byte gives them.
fn seven_segments(hex: bool, byte: u8) -> u32
    ensures value { result ≡ seven_segments hex byte }
    ensures upper_bound { result < 256 }
{
    if hex {
        (byte / 128 * 128) as u32 + hex_segments(byte) as u32
    } else {
        byte as u32
    }
}

// The segments of a 7-segment pair: digit d as bits 7 to 0, digit da as bits 15 to 8.
pub fn pair_segments(hex: bool, byte: u8, a: u8) -> u32
    ensures { result ≡ pair_segments hex byte a }
{
    let second = seven_segments(hex, a);
    let first = seven_segments(hex, byte);
    second * 256 + first
}

// The segments of a 14- or 16-segment digit under a lent table: the glyph word as bits 15 to 0, dp as bit 16. Past the table's end the word is 0.
pub fn glyph_segments(font: &[u16], byte: u8) -> u32
    ensures { result ≡ glyph_segments font.now byte }
{
    let word = font.get((byte % 128) as usize).copied().unwrap_or(0);
    (byte / 128) as u32 * 65536 + word as u32
}

// A theorem: each segment of each display's list is lit where its bit is 1.
pub fn segment_by_segment()
    ensures { SegmentBySegment }
{}

// A theorem: what a byte lights is what Tables 9 to 11 say.
pub fn glyph_tables()
    ensures { GlyphTables }
{}
