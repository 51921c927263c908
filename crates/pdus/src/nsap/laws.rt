//! Laws of the definitions that the contracts cite. The functions do nothing.
ghost use Rattle.std.specs.Prelude.{◌≡◌, ◌*◌, ◌++◌, ◌↔◌, ℕ, List, Ok, length, true};
ghost use Rattle.std.specs.List.{AllPass};
ghost use Rattle.hex.specs.Hex.{is_hex_digit};
ghost use Rattle.pdus.specs.Nsap.Address.{IsAddress};
ghost use Rattle.pdus.specs.Nsap.Prefix.{IsPrefix, covers, digits_of, prefix_of, prefix_text};
ghost use Rattle.pdus.specs.Nsap.Text.{hex_text, octets_of};

/// What `push_text` writes of an address is read as the same address.
pub fn text_reads_back()
    ensures { (octets : List ℕ) → IsAddress octets → octets_of (hex_text octets) ≡ Ok octets }
{}

/// What a text is read as is an address.
pub fn read_is_address()
    ensures { (text octets : List ℕ) → octets_of text ≡ Ok octets → IsAddress octets }
{}

/// What `push_text` writes of an address is two hexadecimal digits an octet, and nothing else.
pub fn text_is_digits()
    ensures digits { (octets : List ℕ) → IsAddress octets → AllPass is_hex_digit (hex_text octets) }
    ensures two { (octets : List ℕ) → length (hex_text octets) ≡ 2 * length octets }
{}

/// What `push_text` writes of an address is read as the prefix of all its digits.
pub fn text_reads_as_prefix()
    ensures { (octets : List ℕ) → IsAddress octets → prefix_of (hex_text octets) ≡ Ok (digits_of octets) }
{}

/// What `push_text` writes of a prefix is read as the same prefix.
pub fn prefix_text_reads_back()
    ensures { (digits : List ℕ) → IsPrefix digits → prefix_of (prefix_text digits) ≡ Ok digits }
{}

/// A prefix covers an address exactly where the address's digits are those of the prefix and then any others.
pub fn covered_begins_with_prefix()
    ensures { (digits octets : List ℕ)
        → (covers digits octets ≡ true) ↔ ((rest : List ℕ) × (digits_of octets ≡ digits ++ rest)) }
{}
