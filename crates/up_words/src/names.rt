ghost use Rattle.std.specs.Prelude.{◌≡◌};
ghost use Rattle.std.specs.List.{list_all};
ghost use Rattle.up_words.specs.Names.{is_letter, is_name_byte, is_name};

fn is_lower(byte: u8) -> bool
    ensures { result ≡ is_letter byte }
{
    b'a' <= byte && byte <= b'z'
}

fn is_lower_or_digit(byte: u8) -> bool
    ensures { result ≡ is_name_byte byte }
{
    is_lower(byte) || (b'0' <= byte && byte <= b'9')
}

fn are_lower_or_digits(bytes: &[u8]) -> bool
    ensures { result ≡ list_all is_name_byte bytes.now }
{
    bytes.iter().all(|byte| is_lower_or_digit(*byte))
}

/// The word is of the form of a name.
pub fn spells_name(word: &[u8]) -> bool
    ensures { result ≡ is_name word.now }
{
    !word.is_empty() && is_lower(word[0]) && word.len() <= 16 && are_lower_or_digits(word)
}
