//! The syntax of names.

ghost use Rattle.std.specs.Prelude.{◌≡◌};
ghost use Rattle.std.specs.List.{list_all};
ghost use Rattle.pct_model.specs.Names.{is_letter, is_name_byte, is_name};

use pct_model::MAX_NAME;
use pct_text::is_digit;

fn is_letter(byte: u8) -> bool
    ensures { result ≡ is_letter byte }
{
    b'A' <= byte && byte <= b'Z' || b'a' <= byte && byte <= b'z'
}

fn is_name_byte(byte: u8) -> bool
    ensures { result ≡ is_name_byte byte }
{
    is_letter(byte) || is_digit(byte) || byte == b'_'
}

fn are_name_bytes(bytes: &[u8]) -> bool
    ensures { result ≡ list_all is_name_byte bytes.now }
{
    bytes.iter().all(|byte| is_name_byte(*byte))
}

/// Whether the bytes are a name: 1 to 31 letters, digits or `_`, the first of them not a digit.
#[tactic(auto, unfolding(pct_model::specs::Names::is_name))]
pub(crate) fn is_name(bytes: &[u8]) -> bool
    ensures { result ≡ is_name bytes.now }
{
    match bytes {
        [] => false,
        [first, ..] => !is_digit(*first) && bytes.len() <= MAX_NAME && are_name_bytes(bytes),
    }
}
