// Range codes (document 01): one byte a sample, whose value is worked out from the code's two parts (document 02, "Smaller
// firmware image"). Tables that the caller brings are in the module `tables`.
#![tactic(auto)]

ghost use Rattle.std.specs.Prelude.{◌≡◌, ◌≤◌, ◌<◌, pos, length, get_or, set};
ghost use Rattle.lists.specs.Overwrite.{overwrite};
ghost use Rattle.codes.specs.Code.{code_value, code_values};

pub mod tables;

// The value of a code.
fn value(c: u8) -> i16
    ensures { result ≡ pos (code_value c) }
{
    let code = u16::from(c);
    let e = code / 32;
    let m = code % 32;
    (((m + 32) << e) - 32) as i16
}

// Writes the value of the code at i to the entry at i.
fn put(codes: &[u8], i: usize, out: &mut [i16])
    requires { (i < length codes.now) × (i < length out.old) }
    ensures { out.new ≡ set out.old i (pos (code_value (get_or codes.now i 0))) }
{
    out[i] = value(codes[i]);
}

// Writes the values of codes to the front of a lent list. A step writes one value from either end, in the middle of an odd
// number of codes the same one twice. Of such a loop the compiler makes no vector instructions: they would take their
// constants from read-only memory.
pub fn expand(codes: &[u8], out: &mut [i16])
    requires { length codes.now ≤ length out.old }
    ensures { out.new ≡ overwrite (code_values codes.now) out.old }
{
    let n = codes.len();
    for i in 0..n.div_ceil(2) {
        put(codes, i, out);
        put(codes, n - 1 - i, out);
    }
}
