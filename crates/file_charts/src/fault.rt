ghost use Rattle.std.specs.Prelude.{◌≡◌, Some};
ghost use Rattle.file_charts.specs.declared.fault.FileFault.TheVariants.{Weighted, Choice};
ghost use Rattle.file_charts.specs.Lines.{fault_line};

use std::fmt;

/// Why a showing is not valid on the chart of a file.
#[derive(Clone, Copy, PartialEq, Eq, Debug)]
pub enum FileFault {
    /// A weighted chart finds this fault.
    Weighted(chain::fault::Fault),
    /// A choice chart finds this fault.
    Choice(transitions::fault::Fault),
}

impl From<chain::fault::Fault> for FileFault {
    ghost from_gives = { λ fault r. r ≡ Weighted fault };

    fn from(fault: chain::fault::Fault) -> FileFault {
        FileFault::Weighted(fault)
    }
}

impl From<transitions::fault::Fault> for FileFault {
    ghost from_gives = { λ fault r. r ≡ Choice fault };

    fn from(fault: transitions::fault::Fault) -> FileFault {
        FileFault::Choice(fault)
    }
}

impl fmt::Display for FileFault {
    ghost output = { λ fault. Some (fault_line fault) };

    fn fmt<W: fmt::Write>(&self, f: &mut fmt::Formatter<W>) -> fmt::Result {
        match self {
            FileFault::Weighted(fault) => write!(f, "{fault}"),
            FileFault::Choice(fault) => write!(f, "{fault}"),
        }
    }
}
