// The sums of two traces' values: check 18, and writing them.
ghost use Rattle.std.specs.Prelude.{◌≡◌, ◌<◌, length};
ghost use Rattle.lists.specs.Overwrite.{overwrite};
ghost use Rattle.summed.specs.Sum.{sums_of, overflow_at, overflow_row, Summable};

use lists::first_rare;
use refusal::Refusal;

// Whether the sum of sample k is below -32,768 or above 32,767. Both are compared, so that a pass over the samples has no way out.
fn overflows(values1: &[i16], values2: &[i16], k: usize) -> bool
    requires { (k < length values1.now) × (k < length values2.now) }
    ensures { result ≡ overflow_at values1.now values2.now k }
{
    let s = i32::from(values1[k]) + i32::from(values2[k]);
    (s < -32768) | (32767 < s)
}

// Check 18.
#[tactic(auto, unfolding(crate::specs::Sum::overflow_row))]
pub fn check(values1: &[i16], values2: &[i16]) -> Result<(), Refusal>
    requires { length values2.now ≡ length values1.now }
    ensures { result ≡ overflow_row values1.now values2.now }
{
    let n = values1.len();
    let k = first_rare(0, n, |k| overflows(values1, values2, k));
    if k < n {
        return Err(Refusal::Overflow(k));
    }
    Ok(())
}

// Writes the sums to the front of a lent list.
#[tactic(auto, using(lists::proofs::PartLaws::writing_none))]
pub fn add(values1: &[i16], values2: &[i16], sums: &mut [i16])
    requires { Summable values1.now values2.now (length sums.old) }
    ensures { sums.new ≡ overwrite (sums_of values1.now values2.now) sums.old }
{
    for k in 0..values1.len() {
        sums[k] = values1[k] + values2[k];
    }
}
