//! The errors of the commands `eval`, `check` and `policy`, and the error message for each.
ghost use Rattle.std.specs.Prelude.{◌≡◌};
ghost use Rattle.arachne_cli.specs.Fault.{fault_number, fault_place, line_of};
ghost use Rattle.arachne_cli.specs.declared.fault.Fault.TheVariants.{InText, InProgram, Memory};

use arachne_lang::{CheckFault, TextFault};
use std::alloc::AllocError;
use std::fmt;

/// The reason why a command failed.
///
/// The exit status of the program is 2 for `NoOrder`, and 1 for any other fault.
#[derive(Clone, Copy, Debug)]
pub enum Fault {
    /// The input is not the text of a program, or of samples. The field has the error and its position.
    InText(TextFault),
    /// The input is the text of a program, but the checker has refused the program. The field has the reason.
    InProgram(CheckFault),
    /// The sample on line `line` of the input (counted from 1) is the first for which the core policy can give no
    /// advice.
    BadSample { line: usize },
    /// An order to grant or release a core is malformed. `index` is the index of the first malformed one among the
    /// orders, counted from 0.
    NoOrder { index: usize },
    /// Memory was refused.
    Memory,
    /// The input has more than 33,554,432 bytes.
    TooLong,
    /// The input could not be read.
    Read,
    /// The output could not be written.
    Write,
}

impl From<TextFault> for Fault {
    ghost from_gives = { λ inner fault. fault ≡ InText inner };

    fn from(fault: TextFault) -> Fault {
        Fault::InText(fault)
    }
}

impl From<CheckFault> for Fault {
    ghost from_gives = { λ inner fault. fault ≡ InProgram inner };

    fn from(fault: CheckFault) -> Fault {
        Fault::InProgram(fault)
    }
}

impl From<AllocError> for Fault {
    ghost from_gives = { λ _ fault. fault ≡ Memory };

    fn from(_error: AllocError) -> Fault {
        Fault::Memory
    }
}

impl Fault {
    /// Returns the error message for this fault.
    pub fn line(self) -> FaultLine
        ensures { result ≡ line_of self }
    {
        FaultLine {
            number: self.number(),
            place: self.place(),
        }
    }

    /// Returns the number of this kind of fault in the error message.
    fn number(self) -> u8
        ensures { result ≡ fault_number self }
    {
        match self {
            Fault::InText(TextFault::Header { .. }) => 1,
            Fault::InText(TextFault::Syntax { .. }) => 2,
            Fault::InText(TextFault::Number { .. }) => 3,
            Fault::InText(TextFault::Nesting { .. }) => 4,
            Fault::InText(TextFault::Memory) => 30,
            Fault::InProgram(CheckFault::Nesting) => 4,
            Fault::InProgram(CheckFault::NoArray(_)) => 5,
            Fault::InProgram(CheckFault::NoLedger(_)) => 6,
            Fault::InProgram(CheckFault::NoLock(_)) => 7,
            Fault::InProgram(CheckFault::Unbound(_)) => 8,
            Fault::InProgram(CheckFault::WithinHold(_)) => 9,
            Fault::InProgram(CheckFault::OverLimit) => 10,
            Fault::InProgram(CheckFault::NoGrain(_)) => 11,
            Fault::BadSample { .. } => 12,
            Fault::NoOrder { .. } => 26,
            Fault::Memory => 30,
            Fault::TooLong => 36,
            Fault::Read => 37,
            Fault::Write => 38,
        }
    }

    fn place(self) -> Place
        ensures { result ≡ fault_place self }
    {
        match self {
            Fault::InText(
                TextFault::Header { at }
                | TextFault::Syntax { at }
                | TextFault::Number { at }
                | TextFault::Nesting { at },
            ) => Place::At(at),
            Fault::InProgram(
                CheckFault::NoArray(node)
                | CheckFault::NoLedger(node)
                | CheckFault::NoLock(node)
                | CheckFault::Unbound(node)
                | CheckFault::WithinHold(node)
                | CheckFault::NoGrain(node),
            ) => Place::Node(node),
            Fault::BadSample { line } => Place::Line(line),
            Fault::NoOrder { index } => Place::Order(index),
            _ => Place::Nowhere,
        }
    }
}

/// The error message of a fault, such as `fault 2 at 17`: the number of its kind, and its position.
#[derive(Clone, Copy)]
pub struct FaultLine {
    pub number: u8,
    pub place: Place,
}

/// The position of a fault: the index of a byte, the number of a node of the program, the number of a line, or the
/// index of an order.
#[derive(Clone, Copy)]
pub enum Place {
    Nowhere,
    At(usize),
    Node(u64),
    Line(usize),
    Order(usize),
}

impl fmt::Display for FaultLine {
    ghost use Rattle.std.specs.Prelude.{Some};
    ghost use Rattle.arachne_cli.specs.Fault.{line_words};

    ghost output = { λ line. Some (line_words line) };

    fn fmt<W: fmt::Write>(&self, f: &mut fmt::Formatter<W>) -> fmt::Result {
        write!(f, "fault {}{}", self.number, self.place)
    }
}

impl fmt::Display for Place {
    ghost use Rattle.std.specs.Prelude.{Some};
    ghost use Rattle.arachne_cli.specs.Fault.{place_words};

    ghost output = { λ place. Some (place_words place) };

    fn fmt<W: fmt::Write>(&self, f: &mut fmt::Formatter<W>) -> fmt::Result {
        match self {
            Place::Nowhere => Ok(()),
            Place::At(byte) => write!(f, " at {byte}"),
            Place::Node(node) => write!(f, " node {node}"),
            Place::Line(line) => write!(f, " line {line}"),
            Place::Order(index) => write!(f, " order {index}"),
        }
    }
}
