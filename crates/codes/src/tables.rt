// Tables of range values (document 02, "Our own range table"): the checks, and expanding by a table.
ghost use Rattle.std.specs.Prelude.{◌≡◌, ◌≤◌, ◌<◌, length};
ghost use Rattle.lists.specs.First.{first};
ghost use Rattle.lists.specs.Overwrite.{overwrite};
ghost use Rattle.codes.specs.RangeTable.{value_in, values_in, not_rising, table_row, expand_with_rows};

use lists::first_rare;
use refusal::{Refusal, check_room};

// Whether the value of code c is not above the one before.
fn not_rising(table: &[i16], c: usize) -> bool
    requires { (1 ≤ c) × (c < length table.now) }
    ensures { result ≡ not_rising table.now c }
{
    table[c] <= table[c - 1]
}

// The first such code; 256 where there is none.
fn first_not_rising(table: &[i16]) -> usize
    requires { length table.now ≡ 256 }
    ensures { result ≡ first (not_rising table.now) 1 256 }
{
    first_rare(1, 256, |c| not_rising(table, c))
}

// Check 12.
#[tactic(auto, unfolding(crate::specs::RangeTable::table_row))]
fn check_table(table: &[i16]) -> Result<(), Refusal>
    ensures { result ≡ table_row table.now }
{
    if table.len() != 256 {
        return Err(Refusal::Table(0));
    }
    let c = first_not_rising(table);
    if c < 256 {
        return Err(Refusal::Table(c));
    }
    Ok(())
}

// Checks 1, 12 and 10 of codes, a table and an output of `room` entries.
#[tactic(auto, unfolding(crate::specs::RangeTable::expand_with_rows))]
pub fn check(codes: &[u8], table: &[i16], room: usize) -> Result<(), Refusal>
    ensures { result ≡ expand_with_rows codes.now table.now room }
{
    let n = codes.len();
    if n < 1 || 4096 < n {
        return Err(Refusal::Length);
    }
    check_table(table)?;
    check_room(n, room)
}

// The value of a code in a table.
fn value_in(table: &[i16], c: u8) -> i16
    requires { length table.now ≡ 256 }
    ensures { result ≡ value_in table.now c }
{
    table[usize::from(c)]
}

// Writes a table's values of codes to the front of a lent list.
pub fn expand_by(table: &[i16], codes: &[u8], out: &mut [i16])
    requires { (length table.now ≡ 256) × (length codes.now ≤ length out.old) }
    ensures { out.new ≡ overwrite (values_in table.now codes.now) out.old }
{
    for (i, c) in codes.iter().enumerate() {
        out[i] = value_in(table, *c);
    }
}
