ghost use Rattle.std.specs.Prelude.{◌≡◌, ℕ, List, [], ◌∷◌};
ghost use Rattle.file_charts.specs.Faults as file_faults;
ghost use Rattle.joint.specs.Faults as joint_faults;
ghost use Rattle.file_registers.specs.Faults.{numbers_of, sitting_number};

use file_charts::fault::FileFault;
use joint::fault::Fault;

/// One of the two sittings of a test that is sat twice.
#[derive(Clone, Copy)]
pub(crate) enum Sitting {
    First,
    Second,
}

/// The numbers of a fault, and the sitting that finds it where one of two does.
#[derive(Clone, Copy)]
pub(crate) struct FaultNumbers {
    pub(crate) sitting: Option<Sitting>,
    pub(crate) number: u16,
    pub(crate) place: usize,
}

/// A fault that has such numbers.
pub(crate) trait Numbered {
    ghost numbers: { Self → List ℕ };

    fn numbers(&self) -> FaultNumbers
        ensures { numbers_of result ≡ numbers self.now };
}

impl Numbered for FileFault {
    ghost numbers = { file_faults.fault_numbers };

    fn numbers(&self) -> FaultNumbers {
        let (number, place) = match self {
            FileFault::Weighted(fault) => (fault.number(), fault.place()),
            FileFault::Choice(fault) => (fault.number(), fault.place()),
        };
        FaultNumbers {
            sitting: None,
            number,
            place,
        }
    }
}

/// The numbers of a fault that no one sitting finds.
fn of_both(number: u16) -> FaultNumbers
    ensures { numbers_of result ≡ number ∷ 0 ∷ [] }
{
    FaultNumbers {
        sitting: None,
        number,
        place: 0,
    }
}

/// The numbers of a fault of a sitting.
fn of_sitting(sitting: Sitting, fault: &FileFault) -> FaultNumbers
    ensures { numbers_of result ≡ sitting_number sitting ∷ file_faults.fault_numbers fault.now }
{
    let FaultNumbers { number, place, .. } = fault.numbers();
    FaultNumbers {
        sitting: Some(sitting),
        number,
        place,
    }
}

impl Numbered for Fault<FileFault, FileFault> {
    ghost numbers = { joint_faults.fault_numbers file_faults.fault_numbers file_faults.fault_numbers };

    fn numbers(&self) -> FaultNumbers {
        match self {
            Fault::Unjudged => of_both(100),
            Fault::Split => of_both(141),
            Fault::NoSitting => of_both(142),
            Fault::First(fault) => of_sitting(Sitting::First, fault),
            Fault::Second(fault) => of_sitting(Sitting::Second, fault),
        }
    }
}
