// The sums of a trace's values, with what keeps the two tests within 64 bits. The contracts of their methods, in lib.rt, cite definitions
// that speak of this struct, so it has a file of its own.
ghost use Rattle.std.specs.Prelude.{◌*◌, ◌≤◌, nat_abs};

// How many values there are, their sum and the sum of their squares.
#[derive(Clone, Copy)]
pub struct Sums {
    pub count: u64,
    pub sum: i32,
    pub squares: u64,
    ghost few: { count ≤ 4096 },
    ghost small: { nat_abs sum ≤ 32768 * count },
    ghost bounded: { squares ≤ 1073741824 * count },
    ghost root: { nat_abs sum * nat_abs sum ≤ count * squares },
}
