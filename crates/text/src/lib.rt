// Text written into lent room from a place on: bytes as they are, numbers in decimal. Each function gives back the place after it; where it doesn't fit,
// nothing is written and the place stays.
#![tactic(auto)]

ghost use Rattle.std.specs.Prelude.{◌≡◌};
ghost use Rattle.text.specs.Text.{decimal as decimal_of};
ghost use Rattle.text.specs.Examples.{Examples};
ghost use Rattle.text.specs.Written.{room_after, place_after};

// Some bytes as they are.
pub fn put(bytes: &[u8], out: &mut [u8], at: usize) -> usize
    ensures place { result ≡ place_after bytes.now at out.old }
    ensures room { out.new ≡ room_after bytes.now at out.old }
{
    if out.len() < at {
        return at;
    }
    if out.len() - at < bytes.len() {
        return at;
    }
    let end = at + bytes.len();
    out[at..end].copy_from_slice(bytes);
    end
}

// A number in decimal.
pub fn decimal(v: u64, out: &mut [u8], at: usize) -> usize
    ensures place { result ≡ place_after (decimal_of v) at out.old }
    ensures room { out.new ≡ room_after (decimal_of v) at out.old }
{
    let mut digits = [0u8; 20];
    let mut place = 19;
    let mut left = v;
    while 9 < left {
        digits[place] = (48 + left % 10) as u8;
        left /= 10;
        place -= 1;
    }
    digits[place] = (48 + left % 10) as u8;
    put(&digits[place..], out, at)
}

// A theorem: some numbers in decimal.
pub fn examples()
    ensures { Examples }
{}
