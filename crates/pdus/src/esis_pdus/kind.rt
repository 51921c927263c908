//! The kinds of ES-IS PDUs.
ghost use Rattle.pdus.specs.EsisPdus.Kinds.{code_of};
ghost use Rattle.std.specs.Prelude.{◌≡◌, ◌==◌, ◌||◌, MatchOption, false};

/// The kind that a header's type says (ISO 9542, section 7.2).
#[derive(Clone, Copy)]
pub(crate) enum Kind {
    EndSystemHello,
    IntermediateSystemHello,
    Redirect,
}

/// The kind that an octet of three bits 0 and a type says.
pub(crate) fn kind_of(octet: u8) -> Option<Kind>
    ensures { MatchOption result ((octet == 2 || (octet == 4 || octet == 6)) ≡ false) (λ kind. octet ≡ code_of kind) }
{
    match octet {
        2 => Some(Kind::EndSystemHello),
        4 => Some(Kind::IntermediateSystemHello),
        6 => Some(Kind::Redirect),
        _ => None,
    }
}

/// The type of a kind.
pub(crate) fn type_of(kind: Kind) -> u8
    ensures { result ≡ code_of kind }
{
    match kind {
        Kind::EndSystemHello => 2,
        Kind::IntermediateSystemHello => 4,
        Kind::Redirect => 6,
    }
}
