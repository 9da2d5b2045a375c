ghost use Rattle.history.specs.Promises.{HasHistory};
ghost use Rattle.register.specs.Contents.{held_in, top_within};

use crate::contents::Contents;
use chart::kind::Chart;

mod agreeing;
mod asking;
mod calls;

/// A register of distances over a chart. A history of calls, from its making on, led to what it holds.
#[derive(Drop)]
pub struct Register<C: Chart> {
    contents: Contents<C>,
    ghost reached: { HasHistory (C.Chart.meaning contents.chart) (top_within contents) (held_in contents) },
}
