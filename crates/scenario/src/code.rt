//! The codes of what a line of a scenario text breaks.
ghost use Rattle.std.specs.Prelude.{◌≡◌, ◌≢◌, IfSome, IfNone};
ghost use Rattle.scenario.specs.Codes.{number_of, name_of};
ghost use Rattle.scenario.specs.declared.code.Code.{Code};

/// What a line of a scenario text breaks.
#[derive(Clone, Copy, Debug, PartialEq, Eq)]
pub enum Code {
    /// The first line that isn't skipped isn't the header.
    Header = 1,
    /// An unknown first word, a wrong number of words, a word of another form, or a line that is
    /// missing or too many.
    Syntax = 2,
    /// A word that isn't decimal, or a number out of its range.
    Number = 3,
    /// An address, a prefix or hexadecimal text that isn't one.
    Address = 4,
    /// A system, a subnetwork or a port that isn't declared, a router where a host is needed, or a
    /// host where a router is.
    UnknownName = 5,
    /// A name that is declared already, a word or a line that may stand once and stands twice, or
    /// a second port of a system with the same number or on the same subnetwork.
    DupName = 6,
    /// An address that a system has already, an SNPA that stands already on its subnetwork, or a
    /// prefix of which a router has a route already.
    DupAddress = 7,
    /// An identifier would rest for less than the time that a copy may be given and a buffer is
    /// kept.
    Limits = 8,
    /// An MTU that is decimal and out of its range.
    Mtu = 9,
    /// Too many subnetworks, systems, addresses, ports, routes, events, copies settled and lost, or
    /// ticks; or a system that lacks an address or a port, or whose ports' numbers, from 0, have a gap.
    Count = 10,
}

impl Code {
    /// The number that `ScenarioRefusal::BadLine` tells: 1 to 10.
    pub fn number(self) -> u8
        ensures { result ≡ number_of self }
    {
        self as u8
    }

    /// The name that a user is told.
    pub fn name(self) -> &'static str
        ensures { result.now ≡ name_of self }
    {
        match self {
            Code::Header => "header",
            Code::Syntax => "syntax",
            Code::Number => "number",
            Code::Address => "address",
            Code::UnknownName => "unknown-name",
            Code::DupName => "dup-name",
            Code::DupAddress => "dup-address",
            Code::Limits => "limits",
            Code::Mtu => "mtu",
            Code::Count => "count",
        }
    }

    /// The code that has a number, where one has it.
    pub fn of_number(number: u8) -> Option<Code>
        ensures found { IfSome result (λ code. number_of code ≡ number) }
        ensures none { IfNone result ((code : Code) → number_of code ≢ number) }
    {
        match number {
            1 => Some(Code::Header),
            2 => Some(Code::Syntax),
            3 => Some(Code::Number),
            4 => Some(Code::Address),
            5 => Some(Code::UnknownName),
            6 => Some(Code::DupName),
            7 => Some(Code::DupAddress),
            8 => Some(Code::Limits),
            9 => Some(Code::Mtu),
            10 => Some(Code::Count),
            _ => None,
        }
    }
}
