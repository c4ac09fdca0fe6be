// Channels that come end to end in lists of ticks and values, with a length for each.
#![tactic(auto)]

ghost use Rattle.std.specs.Prelude.{◌≡◌, eqb};
ghost use Rattle.channels.specs.Channels.{sum, crate_row};

use refusal::Refusal;

// Whether the lengths add up to n.
fn adds_up(lengths: &[usize], n: usize) -> bool
    ensures { result ≡ eqb (sum lengths.now) n }
{
    let mut left = n;
    for &next in lengths {
        if left < next {
            return false;
        }
        left -= next;
    }
    left == 0
}

// Check 11: there are 1 to 64 channels, and their lengths add up to each list.
#[tactic(auto, using(std::proofs::lemmas::Bool::Decides::nat_tests), unfolding(crate::specs::Channels::crate_row))]
pub fn check(ticks: &[u32], values: &[i16], lengths: &[usize]) -> Result<(), Refusal>
    ensures { result ≡ crate_row ticks.now values.now lengths.now }
{
    let m = lengths.len();
    if 1 <= m && m <= 64 && adds_up(lengths, ticks.len()) && adds_up(lengths, values.len()) {
        Ok(())
    } else {
        Err(Refusal::Crate)
    }
}
