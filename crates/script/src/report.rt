ghost use Rattle.std.specs.Prelude.{◌≡◌, ◌<◌, alloc_error, MatchResult};
ghost use Rattle.history.specs.declared.verdict.Verdict.TheVariants.{Apart, Settled, Open};
ghost use Rattle.register.specs.Held.{chart_of, held};
ghost use Rattle.script.specs.Report.{row_of, rows_of, count_of};

use chart::kind::Chart;
use history::verdict::Verdict;
use register::register::Register;
use std::alloc::{AllocError, Global};

mod items;

pub use items::{Outcomes, Row, Tally};

/// The rows of all pairs of sections, by the first section and then the second.
#[tactic(auto, using(crate::proofs::Rows::row_none, crate::proofs::Rows::row_more, crate::proofs::Rows::section_more))]
pub fn rows<C: Chart>(register: &Register<C>, heap: Global) -> Result<Vec<Row>, AllocError>
where
    C::Fault: Drop,
    ensures { MatchResult result
        (λ rows. rows.items ≡ rows_of (C.Chart.meaning (chart_of register.now)) (held register.now))
        (λ e. e ≡ alloc_error) }
{
    let n = register.sections();
    let mut rows = Vec::new(heap);
    for s in 0..n {
        for t in 0..n {
            rows.push(row(register, s, t))?;
        }
    }
    Ok(rows)
}

/// The row of a pair of sections.
#[tactic(auto, using(crate::proofs::Asking::not_refused, crate::proofs::Asking::answers))]
fn row<C: Chart>(register: &Register<C>, s: usize, t: usize) -> Row
where
    C::Fault: Drop,
    requires first { s < (C.Chart.meaning (chart_of register.now)).sections }
    requires second { t < (C.Chart.meaning (chart_of register.now)).sections }
    ensures { result ≡ row_of (C.Chart.meaning (chart_of register.now)) (held register.now) (s, t) }
{
    // Within the sections no ask is refused.
    let Ok((lower, upper, verdict)) = register.ask(s, t) else {
        unreachable!()
    };
    Row {
        s,
        t,
        lower,
        upper,
        verdict,
    }
}

/// How many of the rows are apart, settled and open.
pub fn tally(rows: &[Row]) -> Tally
    ensures apart { result.apart ≡ count_of Apart rows.now }
    ensures settled { result.settled ≡ count_of Settled rows.now }
    ensures open { result.open ≡ count_of Open rows.now }
{
    let apart = count(rows, Verdict::Apart);
    let settled = count(rows, Verdict::Settled);
    let open = count(rows, Verdict::Open);
    Tally {
        apart,
        settled,
        open,
    }
}

/// How many of the rows have a verdict.
fn count(rows: &[Row], verdict: Verdict) -> usize
    ensures { result ≡ count_of verdict rows.now }
{
    rows.iter().filter(|row| row.verdict == verdict).count()
}
