// The planner over a lent chain of records, and a list of accesses given to the chain.
#![tactic(auto)]

ghost use Rattle.std.specs.Prelude.{◌≡◌, length};
ghost use Rattle.refusals.specs.Numbers.{number_of};
ghost use Rattle.planner.specs.OneDriver.{reach_to, accept_to, list_to};
ghost use Rattle.redraw.specs.Sent.{Sent};
ghost use Rattle.redraw.specs.PlanBytes.{bytes_number, bytes_after, BytesExamples};

use device::Device;
use refusals::Refusal;

// The accesses that the slowest driver needs.
pub fn accesses(chain: &[Device], wanted: &[u8]) -> usize
    ensures { result ≡ reach_to chain.now wanted.now (length chain.now) }
{
    let mut most = 0;
    for (i, d) in chain.iter().enumerate() {
        most = planner::more(most, i, d, wanted);
    }
    most
}

// Whether every driver accepts its words of a list for n.
pub fn accepted(chain: &[Device], n: usize, wanted: &[u8], list: &[u16]) -> bool
    ensures { result ≡ accept_to chain.now n wanted.now list.now (length chain.now) }
{
    let mut each = true;
    for (i, d) in chain.iter().enumerate() {
        each = planner::accepts(each, i, d, n, wanted, list);
    }
    each
}

// The words of every driver, into the first k accesses of the list.
pub fn write_list(chain: &[Device], wanted: &[u8], list: &mut [u16], k: usize)
    ensures { list.new ≡ list_to chain.now wanted.now list.old k (length chain.now) }
{
    for (i, d) in chain.iter().enumerate() {
        planner::write_driver(list, wanted, chain.len(), k, i, d);
    }
}

// A theorem: an accepted list, given to the chain with 16 clocks for each driver and driver n's word first, ends in the wanted planes.
pub fn sent()
    ensures { Sent }
{}

// Why `plan_bytes` is refused, by lengths. The words are divided by n, so that no product is too large.
fn bytes_refusal(n: usize, words: usize, access: usize, room: usize) -> Result<(), Refusal>
    ensures { number_of result ≡ bytes_number n words access room }
{
    if n == 0 || 16 < n {
        return Err(Refusal::Chain);
    }
    if words / n <= access {
        return Err(Refusal::Sent);
    }
    if room < 2 * n {
        return Err(Refusal::Room);
    }
    Ok(())
}

// The bytes to send for one access, from 0, of a list of accesses for n drivers: driver n's word first, each highest byte first.
pub fn plan_bytes(n: usize, list: &[u16], access: usize, bytes: &mut [u8]) -> Result<(), Refusal>
    ensures number { number_of result ≡ bytes_number n (length list.now) access (length bytes.old) }
    ensures bytes { bytes.new ≡ bytes_after n list.now access bytes.old }
{
    bytes_refusal(n, list.len(), access, bytes.len())?;
    let start = access * n;
    let end = start + n;
    wire::write_bytes(&list[start..end], bytes);
    Ok(())
}

// A theorem: the bytes and the numbers of some accesses.
pub fn plan_bytes_examples()
    ensures { BytesExamples }
{}
