//! The fields of a header's address parts.
ghost use Rattle.std.specs.Prelude.{◌≡◌, false, true, MatchOption, IfSome};
ghost use Rattle.pdus.specs.EsisPdus.Fields as fields;
ghost use Rattle.pdus.specs.EsisPdus.Fields.{is_field, behind};

/// The most octets of an address (ISO 9542, section 7.3).
const MOST: usize = 20;

/// The octets of the field at the front and what follows it, where it lies whole in the part and has
/// at most 20 octets.
pub(crate) fn field(part: &[u8]) -> Option<(&[u8], &[u8])>
    ensures judged { MatchOption result (is_field 0 part.now ≡ false) (λ _. is_field 0 part.now ≡ true) }
    ensures octets { IfSome result (λ r. r.0.now ≡ fields.field part.now) }
    ensures behind { IfSome result (λ r. r.1.now ≡ behind part.now) }
{
    let [size, rest @ ..] = part else {
        return None;
    };
    let size = usize::from(*size);
    if size > MOST || size > rest.len() {
        return None;
    }
    Some(rest.split_at(size))
}
