//! The options of a part one after another, as code and value.

ghost use Rattle.std.specs.Prelude.{◌≡◌, ◌+◌, ◌∷◌, ◌++◌, [], length, IfNone, IfSome};
ghost use Rattle.pdus.specs.ClnpOptions.Parameter.{Parameter, parameters};

/// The code and the value of the first option, and the octets that follow it; none where no whole
/// option stands there.
pub fn first_option(part: &[u8]) -> Option<(u8, &[u8], &[u8])>
    ensures none { IfNone result (parameters part.now ≡ []) }
    ensures octets { IfSome result (λ r. part.now ≡ r.0 ∷ length r.1.now ∷ (r.1.now ++ r.2.now)) }
    ensures len { IfSome result (λ r. length part.now ≡ 2 + length r.1.now + length r.2.now) }
    ensures options { IfSome result (λ r. parameters part.now ≡ record { code = r.0; value = r.1.now } ∷ parameters r.2.now) }
{
    let [code, size, rest @ ..] = part else {
        return None;
    };
    let size = *size as usize;
    if size > rest.len() {
        return None;
    }
    let (value, others) = rest.split_at(size);
    Some((*code, value, others))
}
