// The border of the C interface: its structs, what those that C gives stand for (arguments), and the answers of `engine` and of the products
// above it as those that C gets (answers).
#![tactic(auto)]

use live::View;

// A tolerance: form 0 is the ratio p/q, form 1 is x counts, form 2 is the noise x times the multiple y, and form 3 is two parts, p/q above
// the line and dp/dq below it. No other form is allowed.
#[repr(C)]
#[derive(Clone, Copy)]
pub struct Tolerance {
    pub form: u64,
    pub p: u64,
    pub q: u64,
    pub x: f64,
    pub y: f64,
    pub dp: u64,
    pub dq: u64,
}

// What links are asked to meet: a tolerance, and a gap limit in ticks.
#[repr(C)]
#[derive(Clone, Copy)]
pub struct Limits {
    pub tolerance: Tolerance,
    pub gap: u32,
}

// Up to 16 tolerances: the first `count` of `list`.
#[repr(C)]
#[derive(Clone, Copy)]
pub struct Tolerances {
    pub count: u64,
    pub list: [Tolerance; 16],
}

// A tolerance in lowest terms under the number 0, its part above p/q and its part below dp/dq; or a refusal's number and value.
#[repr(C)]
#[derive(Clone, Copy)]
pub struct Held {
    pub number: u32,
    pub value: u64,
    pub p: u64,
    pub q: u64,
    pub dp: u64,
    pub dq: u64,
}

// A link's error p/q, the first sample where it occurs and the number of its side under the number 0; or a refusal's number and value.
#[repr(C)]
#[derive(Clone, Copy)]
pub struct Measured {
    pub number: u32,
    pub side: u32,
    pub value: u64,
    pub p: u64,
    pub q: u64,
    pub sample: u64,
}

// A verdict under the number 0, with the first invalid link and where it strays if the list is not passed; or a refusal's number and value.
#[repr(C)]
#[derive(Clone, Copy)]
pub struct Judged {
    pub number: u32,
    pub passed: u32,
    pub value: u64,
    pub p: u64,
    pub q: u64,
    pub sample: u64,
    pub side: u32,
}

// A verdict of judge's second question under the number 0, with the first position at fault and the fault's number if the list is not passed; or
// a refusal's number and value.
#[repr(C)]
#[derive(Clone, Copy)]
pub struct JudgedGreedy {
    pub number: u32,
    pub passed: u32,
    pub value: u64,
    pub fault: u32,
}

// A verdict on two records under the number 0, or a refusal's number and value.
#[repr(C)]
#[derive(Clone, Copy)]
pub struct Verdict {
    pub number: u32,
    pub passed: u32,
    pub value: u64,
}

// How many samples were kept, or entries or bytes written, under the number 0; or a refusal's number and value.
#[repr(C)]
#[derive(Clone, Copy)]
pub struct Answer {
    pub number: u32,
    pub value: u64,
}

// The same, with the probe total.
#[repr(C)]
#[derive(Clone, Copy)]
pub struct Galloped {
    pub number: u32,
    pub value: u64,
    pub probes: u64,
}

// A view under the number 0; or a refusal's number and value, and zeros.
#[repr(C)]
#[derive(Clone, Copy)]
pub struct Begun {
    pub number: u32,
    pub value: u64,
    pub view: View,
}

// How many samples were kept at each tolerance under the number 0, and 0 behind the last; or a refusal's number and value, and zeros.
#[repr(C)]
#[derive(Clone, Copy)]
pub struct Scanned {
    pub number: u32,
    pub value: u64,
    pub kept: [usize; 16],
}

// How many samples were kept and their error p/q under the number 0, or a refusal's number and value.
#[repr(C)]
#[derive(Clone, Copy)]
pub struct Closest {
    pub number: u32,
    pub value: u64,
    pub p: u64,
    pub q: u64,
}

// The number of a record's samples and the two parts of its tolerance under the number 0, or a refusal's number and value.
#[repr(C)]
#[derive(Clone, Copy)]
pub struct Content {
    pub number: u32,
    pub value: u64,
    pub p: u64,
    pub q: u64,
    pub dp: u64,
    pub dq: u64,
}

// The totals of a crate's channels and the largest error p/q under the number 0, or a refusal's number and value.
#[repr(C)]
#[derive(Clone, Copy)]
pub struct Report {
    pub number: u32,
    pub value: u64,
    pub samples: u64,
    pub kept: u64,
    pub p: u64,
    pub q: u64,
}

// How many channels have moved and how many are noisy under the number 0, or a refusal's number and value.
#[repr(C)]
#[derive(Clone, Copy)]
pub struct Compared {
    pub number: u32,
    pub value: u64,
    pub moved: u64,
    pub noisy: u64,
}

pub mod answers;
pub mod arguments;
