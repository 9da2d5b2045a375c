ghost use Rattle.fixed_order.specs.Order.{Sound, given};

use chart::table::SECTIONS;

pub mod kind;
mod making;

/// A chart of a fixed order: after section `s` comes section `next[s]`.
#[derive(Drop)]
pub struct FixedOrder {
    n: usize,
    a: u16,
    b: u16,
    bands: [u8; SECTIONS],
    next: [usize; SECTIONS],
    ghost fit: { Sound (given n a b bands next) },
}
