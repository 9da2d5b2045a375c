/// Why a showing is not valid on a chart of a fixed order.
#[derive(Clone, Copy, PartialEq, Eq, Debug)]
pub enum Fault {
    /// The pair is apart, or has a section that the chart has not.
    Unjudged,
    /// The showing has words, so many; there is nothing to say in them.
    Words(usize),
}
