// The public call `sum`: two traces added and their kept lists joined (document 02, "Summed channels").
ghost use Rattle.engine.specs.Sum.{SumOutcome};

use refusal::Refusal;

// Writes the sum of each sample into the first entries of `sums`, and the samples of either list in rising order into those of `joined`, each of
// which has as many entries as the traces have samples or more; returns how many samples the joined list keeps.
pub fn sum(
    ticks1: &[u32],
    values1: &[i16],
    ticks2: &[u32],
    values2: &[i16],
    list1: &[u16],
    list2: &[u16],
    sums: &mut [i16],
    joined: &mut [u16],
) -> Result<usize, Refusal>
    ensures { SumOutcome ticks1.now values1.now ticks2.now values2.now list1.now list2.now sums.old joined.old result sums.new joined.new }
{
    summed::check(
        ticks1,
        values1,
        ticks2,
        values2,
        list1,
        list2,
        sums.len(),
        joined.len(),
    )?;
    summed::adding::add(values1, values2, sums);
    Ok(summed::joining::join(ticks1.len(), list1, list2, joined))
}
