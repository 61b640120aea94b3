// The bits on a chain's wire, by bytes and 16-bit windows.
#![tactic(auto)]

ghost use Rattle.std.specs.Prelude.{◌≡◌, ◌++◌, ◌+◌, ◌-◌, ◌*◌, ◌/◌, ◌^◌, ◌≤◌, ◌<◌, length, get_or, take, drop};
ghost use Rattle.refusals.specs.Refusals.{bytes_for, size_refusal};
ghost use Rattle.wire.specs.Bits.{bits, value, unpack, pack};
ghost use Rattle.wire.specs.Wire.{words, answer, shifted};
ghost use Rattle.wire.specs.Shift.{bytes_into, words_after, room_after};
ghost use Rattle.wire.specs.Whole.{WholeAccess};
ghost use Rattle.wire.specs.AnyAccess.{AnyAccess};

// The 16 bits from bit off on of three bytes in a row.
fn window(b0: u8, b1: u8, b2: u8, off: u32) -> u16
    requires { off ≤ 8 }
    ensures { result ≡ value (take 16 (drop off (bits 8 b0 ++ bits 8 b1 ++ bits 8 b2))) }
{
    let v = u32::from_be_bytes([0, b0, b1, b2]);
    ((v >> (8 - off)) % 65536) as u16
}

// The highest m bits of a byte, the others 0.
fn kept(b: u8, m: usize) -> u8
    requires { m ≤ 8 }
    ensures { result ≡ b / 2 ^ (8 - m) * 2 ^ (8 - m) }
{
    let p = 8 - m;
    let w = b as u32;
    (((w >> p) << p) % 256) as u8
}

// Byte k of a row of bytes, 0 past its end.
fn byte_or_zero(bytes: &[u8], k: usize) -> u8
    ensures { result ≡ get_or bytes.now k 0 }
{
    bytes.get(k).copied().unwrap_or(0)
}

// The 16 bits of a row of bytes from a bit on. The third byte that they may reach is 0 past the row's end.
fn word_from(bytes: &[u8], bit: usize) -> u16
    requires { bit + 16 ≤ 8 * length bytes.now }
    ensures { result ≡ value (take 16 (drop bit (unpack bytes.now))) }
{
    let q = bit / 8;
    let b2 = byte_or_zero(bytes, q + 2);
    window(bytes[q], bytes[q + 1], b2, (bit % 8) as u32)
}

// Fills a row of words from a row of bytes, from a bit on, the last word first.
fn write_words(bytes: &[u8], bit: usize, next: &mut [u16])
    requires { (length next.old ≤ 16) × (bit ≤ 4096) × (bit + 16 * length next.old ≤ 8 * length bytes.now) }
    ensures { next.new ≡ words (length next.old) (drop bit (unpack bytes.now)) }
{
    let n = next.len();
    for i in 0..n {
        next[i] = word_from(bytes, bit + 16 * (n - 1 - i));
    }
}

// Writes the bytes of some words, the last word first. Nothing changes where they have no room.
pub fn write_bytes(words: &[u16], room: &mut [u8])
    ensures { room.new ≡ bytes_into words.now room.old }
{
    let n = words.len();
    if room.len() / 2 < n {
        return;
    }
    for j in 0..n {
        let w = words[n - 1 - j];
        let [high, low] = w.to_be_bytes();
        room[2 * j] = high;
        room[2 * j + 1] = low;
    }
}

// Copies the first n bytes of a row into another, from its byte at on.
fn copy_bytes(from: &[u8], n: usize, to: &mut [u8], at: usize)
    requires { (n ≤ length from.now) × (at + n ≤ length to.old) }
    ensures { to.new ≡ take at to.old ++ take n from.now ++ drop (at + n) to.old }
{
    // By bytes: for the library's copy a C program would have to bring a memmove.
    for k in 0..n {
        to[at + k] = from[k];
    }
}

// Clears the spare bits of the last byte, where the clocks end inside it.
fn clear_spare(clocks: usize, room: &mut [u8])
    requires { (clocks ≤ 4096) × (bytes_for clocks ≤ length room.old) }
    ensures { room.new ≡ pack (take clocks (unpack room.old)) ++ drop (bytes_for clocks) room.old }
{
    let used = clocks % 8;
    if used != 0 {
        let last = clocks / 8;
        room[last] = kept(room[last], used);
    }
}

// An access of at least 16 clocks for each driver: the old words are answered whole, and the new words are bits that were sent.
fn shift_whole(words: &mut [u16], clocks: usize, sent: &[u8], room: &mut [u8])
    requires { (length words.old ≤ 16) × (16 * length words.old ≤ clocks) × (bytes_for clocks ≤ length sent.now) × (bytes_for clocks ≤ length room.old) × (clocks ≤ 4096) }
    ensures { (words.new ≡ shifted words.old sent.now clocks) × (room.new ≡ answer words.old sent.now clocks ++ drop (bytes_for clocks) room.old) }
{
    let n = words.len();
    let count = (clocks + 7) / 8;
    write_bytes(words, room);
    copy_bytes(sent, count - 2 * n, room, 2 * n);
    clear_spare(clocks, room);
    write_words(sent, clocks - 16 * n, words);
}

// An access of fewer clocks: all its bits stand in one line, the old words' bytes and after them the sent bytes.
fn shift_part(words: &mut [u16], clocks: usize, sent: &[u8], room: &mut [u8])
    requires { (length words.old ≤ 16) × (clocks < 16 * length words.old) × (bytes_for clocks ≤ length sent.now) × (bytes_for clocks ≤ length room.old) }
    ensures { (words.new ≡ shifted words.old sent.now clocks) × (room.new ≡ answer words.old sent.now clocks ++ drop (bytes_for clocks) room.old) }
{
    let count = (clocks + 7) / 8;
    let mut line = [0; 64];
    write_bytes(words, &mut line);
    copy_bytes(sent, count, &mut line, 2 * words.len());
    copy_bytes(&line, count, room, 0);
    clear_spare(clocks, room);
    write_words(&line, clocks, words);
}

// An access on the words lent, sixteen at most: its answer goes to the room, and the words after it take their place. Nothing
// changes where there are more words or the clocks or the bytes don't fit.
pub fn shift(words: &mut [u16], clocks: usize, sent: &[u8], room: &mut [u8])
    ensures { (words.new ≡ words_after words.old (length words.old) clocks sent.now room.old) × (room.new ≡ room_after words.old (length words.old) clocks sent.now room.old) }
{
    let drivers = words.len();
    if 16 < drivers {
        return;
    }
    if refusals::size_refusal(clocks, sent.len(), room.len()).is_err() {
        return;
    }
    if 16 * drivers <= clocks {
        shift_whole(words, clocks, sent, room);
    } else {
        shift_part(words, clocks, sent, room);
    }
}

// A theorem: what an access of any number of clocks answers, and that spare bits don't matter.
pub fn any_access()
    ensures { AnyAccess }
{}

// A theorem: an access of at least 16 clocks for each driver.
pub fn whole_access()
    ensures { WholeAccess }
{}
