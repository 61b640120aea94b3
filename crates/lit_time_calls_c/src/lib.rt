// The lit time of a script, exported for C.
#![tactic(auto)]

ghost use Rattle.std.specs.Prelude.{◌≡◌, length};
ghost use Rattle.lit_time.specs.Answer.{lit_answer, totals_after};

use lit_time::LitTimeAnswer;

// Runs a script: gives the lit time of each driver's cathodes 0 to 7, driver 1's first, in the totals. 9 for a script that is too long, 1 for its
// chain, 5 for room under 8 totals a driver; refused, no total changes.
#[unsafe(no_mangle)]
pub extern "C" fn max6954_lit_time(script: &[u8], totals: &mut [u64]) -> LitTimeAnswer
    ensures answer { result ≡ lit_answer script.now (length totals.old) }
    ensures totals { totals.new ≡ totals_after script.now totals.old }
{
    lit_time_calls::max6954_lit_time(script, totals)
}
