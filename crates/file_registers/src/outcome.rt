ghost use Rattle.std.specs.Prelude.{◌≡◌, ◌-◌, ◌≤◌, drop, replicate};

mod telling;

/// What a call or a weighing comes to, as it crosses to C: whether it is accepted, how many numbers there are, and the numbers.
///
/// They are its answer, or the number of its refusal and what that carries; those past the count are 0.
#[repr(C)]
#[derive(Drop)]
pub struct Outcome {
    pub accepted: bool,
    pub count: u32,
    pub numbers: [u64; 4],
    ghost within: { count ≤ 4 },
    ghost past: { drop count numbers ≡ replicate (4 - count) 0 },
}
