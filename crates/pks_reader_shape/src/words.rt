//! The classes of words (`docs/FORMAT.md`).

ghost use Rattle.std.specs.Prelude.{◌≡◌};
ghost use Rattle.std.specs.List.{list_all};
ghost use Rattle.std.specs.Char.{is_ascii_digit};
ghost use Rattle.pks_terms.specs.ValidProblems.{is_name_byte, is_name};
ghost use Rattle.pks_reader_shape.specs.Words.{is_variable, is_number};

fn is_name_byte(byte: u8) -> bool
    ensures { result ≡ is_name_byte byte }
{
    byte.is_ascii_alphanumeric() || byte == b'-' || byte == b'_'
}

fn are_name_bytes(bytes: &[u8]) -> bool
    ensures { result ≡ list_all is_name_byte bytes.now }
{
    bytes.iter().all(|b| is_name_byte(*b))
}

fn are_digits(bytes: &[u8]) -> bool
    ensures { result ≡ list_all is_ascii_digit bytes.now }
{
    bytes.iter().all(|b| b.is_ascii_digit())
}

/// Whether the word is a name: a letter, then letters, digits, `-` or `_`.
pub fn is_name(bytes: &[u8]) -> bool
    ensures { result ≡ is_name bytes.now }
{
    match bytes {
        [] => false,
        [first, rest @ ..] => first.is_ascii_alphabetic() && are_name_bytes(rest),
    }
}

/// Whether the word is a variable: `?` and then a name.
pub fn is_variable(bytes: &[u8]) -> bool
    ensures { result ≡ is_variable bytes.now }
{
    match bytes {
        [] => false,
        [first, rest @ ..] => *first == b'?' && is_name(rest),
    }
}

/// Whether the word is a number: digits, the first of which is not `0`.
pub fn is_number(bytes: &[u8]) -> bool
    ensures { result ≡ is_number bytes.now }
{
    match bytes {
        [] => false,
        [first, rest @ ..] => (first.is_ascii_digit() && *first != b'0') && are_digits(rest),
    }
}
