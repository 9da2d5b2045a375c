ghost use Rattle.std.specs.Prelude.{◌≡◌};
ghost use Rattle.joint.specs.declared.fault.Fault.TheVariants.{First, Second};
ghost use Rattle.joint.specs.Lines.{fault_text};

use std::fmt;
use std::fmt::Display;

/// Why a showing is not valid on two sittings, whose faults are `P` and `Q`.
#[derive(Drop, Debug)]
pub enum Fault<P, Q> {
    /// The pair is apart, or has a section that the charts have not.
    Unjudged,
    /// A pairing has no first word, or it is negative or above the number of words left.
    Split,
    /// Potentials have no first word, or it is not 0 or 1.
    NoSitting,
    /// Sitting 0 finds this fault.
    First(P),
    /// Sitting 1 finds this fault.
    Second(Q),
}

/// A fault of sitting 0. The two sittings may have one type of faults, so that each needs a wrapper to convert from.
#[derive(Drop)]
pub struct FirstFault<P>(pub P);

/// A fault of sitting 1.
#[derive(Drop)]
pub struct SecondFault<Q>(pub Q);

impl<P, Q> From<FirstFault<P>> for Fault<P, Q> {
    ghost from_gives = { λ fault r. r ≡ First fault.0 };

    fn from(fault: FirstFault<P>) -> Fault<P, Q> {
        let FirstFault(fault) = fault;
        Fault::First(fault)
    }
}

impl<P, Q> From<SecondFault<Q>> for Fault<P, Q> {
    ghost from_gives = { λ fault r. r ≡ Second fault.0 };

    fn from(fault: SecondFault<Q>) -> Fault<P, Q> {
        let SecondFault(fault) = fault;
        Fault::Second(fault)
    }
}

impl<P: Display, Q: Display> fmt::Display for Fault<P, Q> {
    ghost output = { λ fault. fault_text P.Display.output Q.Display.output fault };

    fn fmt<W: fmt::Write>(&self, f: &mut fmt::Formatter<W>) -> fmt::Result {
        match self {
            Fault::Unjudged => {
                write!(
                    f,
                    "100 0 (the pair is apart, or has a section that the charts have not)"
                )
            }
            Fault::Split => {
                write!(
                    f,
                    "141 0 (a pairing begins with how many of the words left are for sitting 0)"
                )
            }
            Fault::NoSitting => write!(f, "142 0 (potentials begin with their sitting, 0 or 1)"),
            Fault::First(fault) => write!(f, "0 {fault}"),
            Fault::Second(fault) => write!(f, "1 {fault}"),
        }
    }
}
