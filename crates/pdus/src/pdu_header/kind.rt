//! The kinds of PDUs, the types that stand for them in a header, and the words that name them in lines of text.
ghost use Rattle.pdus.specs.PduHeader.Kinds.{kind_word};
ghost use Rattle.pdus.specs.PduHeader.Layout as layout;
ghost use Rattle.pdus.specs.PduHeader.Rules as pdu_rules;
ghost use Rattle.std.specs.Prelude.{◌≡◌};

/// The kind of a PDU (ISO 8473, section 7.2.7; the echo PDUs by RFC 1575, section 4).
#[derive(Clone, Copy)]
pub enum Kind {
    /// Data.
    Dt,
    /// Error report.
    Er,
    /// Echo request.
    Erq,
    /// Echo reply.
    Erp,
}

impl Kind {
    /// The kind that a type says, where it is known.
    pub(crate) fn from_type(code: u8) -> Option<Kind>
        ensures { result ≡ pdu_rules.kind_of code }
    {
        match code {
            1 => Some(Kind::Er),
            28 => Some(Kind::Dt),
            30 => Some(Kind::Erq),
            31 => Some(Kind::Erp),
            _ => None,
        }
    }

    /// The type that says this kind, in the low five bits of the header's octet 5.
    pub fn type_code(self) -> u8
        ensures { result ≡ layout.type_code self }
    {
        match self {
            Kind::Er => 1,
            Kind::Dt => 28,
            Kind::Erq => 30,
            Kind::Erp => 31,
        }
    }

    /// The word by which lines of text name this kind.
    pub fn word(self) -> &'static [u8]
        ensures { result.now ≡ kind_word self }
    {
        match self {
            Kind::Dt => b"dt",
            Kind::Er => b"er",
            Kind::Erq => b"erq",
            Kind::Erp => b"erp",
        }
    }
}
