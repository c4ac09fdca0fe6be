// Commands as they are written.
ghost use Rattle.std.specs.Prelude.{◌≡◌, [], ◌∷◌, ◌+◌, ◌≤◌, length};
ghost use Rattle.lists.specs.Overwrite.{overwrite};
ghost use Rattle.format.specs.declared.Command.TheVariants.{Sides, First, End};
ghost use Rattle.format.specs.Kind.{first_byte};
ghost use Rattle.format.specs.Number.{bytes_onto};
ghost use Rattle.format.specs.Command.{size_of, command_onto};
ghost use Rattle.format.specs.Format.{tolerance_command};
ghost use Rattle.writer.specs.Writing.{StepBetween, step_from};

use crate::Sample;
use format::{Kind, flip8, flip16};
use tolerance::Parts;

// The k bytes of n go to the start of part.
fn put_number(part: &mut [u8], k: usize, n: u64)
    requires { (k ≤ length part.old) × (k ≤ 8) }
    ensures { part.new ≡ overwrite (bytes_onto k n []) part.old }
{
    part[..k].copy_from_slice(&n.to_be_bytes()[8 - k..]);
}

// A command's kind, and two operands of i and j bytes, go to the start of part.
fn put_operands(part: &mut [u8], kind: Kind, i: usize, a: u64, j: usize, b: u64)
    requires { (1 + i + j ≤ length part.old) × (i ≤ 8) × (j ≤ 8) }
    ensures { part.new ≡ overwrite (first_byte kind ∷ bytes_onto i a (bytes_onto j b [])) part.old }
{
    part[0] = u8::from(kind);
    put_number(&mut part[1..], i, a);
    let at = 1 + i;
    put_number(&mut part[at..], j, b);
}

// The command of parts that differ goes to the start of part.
fn put_sides(part: &mut [u8], x: Parts)
    requires { 17 ≤ length part.old }
    ensures { part.new ≡ overwrite (command_onto (Sides x) []) part.old }
{
    let up = x.up;
    let down = x.down;
    put_operands(part, Kind::Sides, 5, up.p, 3, up.q);
    put_number(&mut part[9..], 5, down.p);
    put_number(&mut part[14..], 3, down.q);
}

// The tolerance's command goes to the start of part. Returns its bytes.
pub fn put_tolerance(part: &mut [u8], x: Parts) -> usize
    requires { size_of (tolerance_command x) ≤ length part.old }
    ensures { (part.new ≡ overwrite (command_onto (tolerance_command x) []) part.old) × (result ≡ size_of (tolerance_command x)) }
{
    if tolerance::agree(x) {
        let both = x.up;
        put_operands(part, Kind::Tolerance, 5, both.p, 3, both.q);
        9
    } else {
        put_sides(part, x);
        17
    }
}

// The first sample's command goes to the start of part.
pub fn put_first(part: &mut [u8], s: Sample)
    requires { (7 ≤ length part.old) × (s.level ≤ 65535) }
    ensures { part.new ≡ overwrite (command_onto (First s.tick s.level) []) part.old }
{
    put_operands(part, Kind::First, 4, s.tick, 2, flip16(s.level));
}

// The step from one sample to the next goes to the start of part: short exactly if it can be. Returns its bytes.
pub fn put_step(part: &mut [u8], a: Sample, b: Sample) -> usize
    requires { StepBetween a b × (size_of (step_from a b) ≤ length part.old) }
    ensures { (part.new ≡ overwrite (command_onto (step_from a b) []) part.old) × (result ≡ size_of (step_from a b)) × (result ≤ 6) }
{
    let from = a.level;
    let to = b.level;
    let advance = b.tick - a.tick;
    if format::is_short(from, advance, to) {
        put_operands(part, Kind::Short, 1, advance, 1, flip8(to + 128 - from));
        3
    } else {
        put_operands(part, Kind::Long, 3, advance, 2, flip16(to));
        6
    }
}

// The end's command goes to the start of part.
pub fn put_end(part: &mut [u8], samples: u64)
    requires { 3 ≤ length part.old }
    ensures { part.new ≡ overwrite (command_onto (End samples) []) part.old }
{
    put_operands(part, Kind::End, 2, samples, 0, 0);
}

// The bytes of the step from one sample to the next.
pub fn step_size(a: Sample, b: Sample) -> usize
    requires { StepBetween a b }
    ensures { (result ≡ size_of (step_from a b)) × (result ≤ 6) }
{
    let advance = b.tick - a.tick;
    if format::is_short(a.level, advance, b.level) {
        3
    } else {
        6
    }
}
