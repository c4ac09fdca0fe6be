// Whether the ticks of two traces agree: check 17.
#![tactic(auto)]

ghost use Rattle.std.specs.Prelude.{◌≡◌, min, length};
ghost use Rattle.lists.specs.First.{first};
ghost use Rattle.matching.specs.Match.{differ_at, mismatch_row};

use lists::first_rare;
use refusal::Refusal;

// The first of the samples that both traces have whose ticks differ; their number where there is none.
fn first_different(ticks1: &[u32], ticks2: &[u32]) -> usize
    ensures { result ≡ first (differ_at ticks1.now ticks2.now) 0 (min (length ticks1.now) (length ticks2.now)) }
{
    let n = ticks1.len().min(ticks2.len());
    first_rare(0, n, |k| ticks1[k] != ticks2[k])
}

// Check 17. A sample that one trace lacks differs.
#[tactic(auto, using(crate::proofs::MatchLaws::mismatch_at, crate::proofs::MatchLaws::mismatch_none))]
pub fn check(ticks1: &[u32], ticks2: &[u32]) -> Result<(), Refusal>
    ensures { result ≡ mismatch_row ticks1.now ticks2.now }
{
    let k = first_different(ticks1, ticks2);
    if k < ticks1.len().max(ticks2.len()) {
        return Err(Refusal::Mismatch(k));
    }
    Ok(())
}
