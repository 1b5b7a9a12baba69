// The faults of a shelf, each with the fault below it whole.
ghost use Rattle.std.specs.Prelude.{◌≡◌};
ghost use Rattle.answers.specs.declared.fault.Fault.TheVariants.{Draft};
ghost use Rattle.answers.specs.Reports.{plain_report, report_of, transducing_fault};

use alphabet::Cause;
use filter::TransduceFault;
use table::{FaultCode, TableFault};

// Holdings are numbered from 1.
#[derive(Clone, Copy, Debug, PartialEq)]
pub enum Fault {
    // Head and ledger do not fit each other, or the lists.
    Misfit,
    // The holding is the lowest that is unsound.
    Unsound(usize, TableFault),
    // No holding has this number.
    NoHolding(usize),
    // The table that was handed in is unsound.
    Draft(TableFault),
    // The text has more than 1,048,576 symbols.
    LongText,
    // The joined filter is over a limit, or over the lists for it and its pairs.
    TooLarge,
    // The scratch is too small for a comparison with this holding.
    ShortScratch(usize),
    // The filter is equivalent to this holding, and to none below it.
    Double(usize),
    // There is no room for one more holding.
    Full,
    // The witness or the output is shorter than this length, which is needed.
    TooShort(usize),
}

// A fault as it is reported: its number, its place, the cause where there is one, and of an unsound holding its fault.
#[derive(Clone, Copy, Debug, PartialEq)]
pub struct Report {
    pub number: u8,
    pub place: usize,
    pub cause: Option<Cause>,
    pub inner: Option<FaultCode>,
}

// A report with nothing but a number and a place.
fn plain(number: u8, place: usize) -> Report
    ensures { result ≡ plain_report number place }
{
    Report {
        number,
        place,
        cause: None,
        inner: None,
    }
}

impl Fault {
    // The fault as it is reported. A method, since a `From` would not say at a call what it gives.
    pub fn report(self) -> Report
        ensures { result ≡ report_of self }
    {
        match self {
            Fault::Misfit => plain(1, 0),
            Fault::Unsound(holding, fault) => Report {
                inner: Some(fault.code()),
                ..plain(1, holding)
            },
            Fault::NoHolding(number) => plain(2, number),
            Fault::Draft(fault) => {
                let code = fault.code();
                Report {
                    cause: code.cause,
                    ..plain(code.number, code.place)
                }
            }
            Fault::LongText => plain(3, 1),
            Fault::TooLarge => plain(12, 0),
            Fault::ShortScratch(holding) => plain(13, holding),
            Fault::Double(holding) => plain(14, holding),
            Fault::Full => plain(15, 0),
            Fault::TooShort(needed) => plain(16, needed),
        }
    }
}

impl From<TableFault> for Fault {
    ghost from_gives = { λ f r. r ≡ Draft f };

    fn from(fault: TableFault) -> Fault {
        Fault::Draft(fault)
    }
}

impl From<TransduceFault> for Fault {
    ghost from_gives = { λ f r. r ≡ transducing_fault f };

    fn from(fault: TransduceFault) -> Fault {
        match fault {
            TransduceFault::Unsound(fault) => Fault::Draft(fault),
            TransduceFault::LongText => Fault::LongText,
            TransduceFault::ShortOutput(needed) => Fault::TooShort(needed),
        }
    }
}
