// Two kept lists joined, in one pass over both.
ghost use Rattle.std.specs.Prelude.{◌≡◌, cond, ◌+◌, ◌<◌, eqb, length};
ghost use Rattle.lists.specs.Overwrite.{Wrote};
ghost use Rattle.summed.specs.Sum.{joined_of, Joinable};

// The position after i if its entry x is the sample s; else i.
fn past(i: usize, x: u16, s: u16) -> usize
    requires { i < 4096 }
    ensures { result ≡ cond (eqb x s) (i + 1) i }
{
    if x == s { i + 1 } else { i }
}

// Writes the samples of either of two kept lists of n samples to the front of a lent list, in rising order; returns how many.
#[tactic(auto, using(crate::proofs::JoinLaws::joining_none, crate::proofs::JoinLaws::joining_inside, crate::proofs::JoinLaws::joining_few, crate::proofs::JoinLaws::joining_same))]
pub fn join(n: usize, list1: &[u16], list2: &[u16], joined: &mut [u16]) -> usize
    requires { Joinable n list1.now list2.now (length joined.old) }
    ensures { Wrote (joined_of n list1.now list2.now) joined.old result joined.new }
{
    let mut i = 0;
    let mut j = 0;
    let mut count = 0;
    let mut next = 0;
    // No `for`: there is no range to go over, as each step goes on behind the sample that it joined.
    while next < n {
        let x = list1[i];
        let y = list2[j];
        let s = x.min(y);
        joined[count] = s;
        i = past(i, x, s);
        j = past(j, y, s);
        count += 1;
        next = usize::from(s) + 1;
    }
    count
}
