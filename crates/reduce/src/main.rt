// The program reduce: reads one record from standard input, treats its samples as a trace, and prints what walk, gallop and minimum keep of it.
// What is cut off is reported on standard error.
#![tactic(auto)]

ghost use Rattle.std.specs.Prelude.{◌≤◌, length};

use commands::Content;
use limits::Limits;
use reduction::Galloped;
use refusal::Refusal;
use std::io::Read;
use std::{fmt, io};
use tolerance::{Parts, Tolerance};

// A tolerance as it is printed: one ratio where the parts agree, both where they differ.
#[derive(Clone, Copy)]
struct Printed(Parts);

impl fmt::Display for Printed {
    fn fmt<W: fmt::Write>(&self, f: &mut fmt::Formatter<W>) -> fmt::Result {
        let Parts { up, down } = self.0;
        write!(f, "{}/{}", up.p, up.q)?;
        if up != down {
            write!(f, " {}/{}", down.p, down.q)?;
        }
        Ok(())
    }
}

// Prints the first n samples of a list, a space before each, and ends the line.
fn print_samples(rt: &impl Print, list: &[u16], n: usize) -> io::Result<()> {
    for k in list.iter().take(n) {
        print!(rt; " {k}")?;
    }
    println!(rt; "")
}

fn print_kept(rt: &impl Print, kept: Result<usize, Refusal>, list: &[u16]) -> io::Result<()> {
    match kept {
        Ok(n) => {
            print!(rt; "{n}")?;
            print_samples(rt, list, n)
        }
        Err(_) => println!(rt; ""),
    }
}

fn print_probed(rt: &impl Print, kept: Result<Galloped, Refusal>, list: &[u16]) -> io::Result<()> {
    match kept {
        Ok(g) => {
            print!(rt; "{} {}", g.kept, g.probes)?;
            print_samples(rt, list, g.kept)
        }
        Err(_) => println!(rt; ""),
    }
}

// What walk keeps of a trace, what gallop, and what minimum.
fn print_walk(rt: &impl Print, ticks: &[u32], values: &[i16], t: Limits) -> io::Result<()> {
    let mut list = [0u16; 4096];
    let kept = engine::walk::walk(ticks, values, t, &mut list);
    print!(rt; "walk ")?;
    print_kept(rt, kept, &list)
}

fn print_gallop(rt: &impl Print, ticks: &[u32], values: &[i16], t: Limits) -> io::Result<()> {
    let mut list = [0u16; 4096];
    let kept = engine::gallop::gallop(ticks, values, t, &mut list);
    print!(rt; "gallop ")?;
    print_probed(rt, kept, &list)
}

fn print_minimum(rt: &impl Print, ticks: &[u32], values: &[i16], t: Limits) -> io::Result<()> {
    let mut list = [0u16; 4096];
    let kept = engine::minimum::minimum(ticks, values, t, &mut list);
    print!(rt; "minimum ")?;
    print_kept(rt, kept, &list)
}

// A record's tolerance stands under the largest gap limit, since records carry none.
fn print_reductions(rt: &impl Print, ticks: &[u32], values: &[i16], t: Parts) -> io::Result<()> {
    let t = Limits {
        tolerance: Tolerance::Parts(t),
        gap: 1_048_575,
    };
    print_walk(rt, ticks, values, t)?;
    print_gallop(rt, ticks, values, t)?;
    print_minimum(rt, ticks, values, t)
}

fn print_record(rt: &impl Print, bytes: &[u8]) -> io::Result<()> {
    let mut ticks = [0u32; 4096];
    let mut values = [0i16; 4096];
    match engine::read::read(bytes, &mut ticks, &mut values) {
        Ok(Content { samples, tolerance }) => {
            println!(rt; "samples {samples} tolerance {}", Printed(tolerance))?;
            print_reductions(rt, &ticks[..samples], &values[..samples], tolerance)
        }
        Err(x) => println!(rt; "refused 8 at {}", x.returned()),
    }
}

// Reads until the buffer is full, the input ends or a read fails; returns how many bytes it read.
fn read_full(input: &mut impl Read, buffer: &mut [u8]) -> usize
    ensures { result ≤ length buffer.new }
{
    let mut n = 0;
    for _ in 0..buffer.len() {
        match input.read(&mut buffer[n..]) {
            Ok(0) => break,
            Ok(k) => n += k,
            Err(_) => break,
        }
    }
    n
}

fn main(rt: HostRuntime) {
    let mut bytes = [0u8; 24598];
    let n = read_full(&mut rt.stdin(), &mut bytes);
    if print_record(&rt, &bytes[..n]).is_err() {
        let _ = eprintln!(rt; "reduce: the output is cut off");
    }
}
