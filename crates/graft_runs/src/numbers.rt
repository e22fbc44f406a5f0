//! The numbers of a command line.
ghost use Rattle.std.specs.Prelude.{◌≡◌, ◌≤◌, IfSome};
ghost use Rattle.std.specs.List.{list_all};
ghost use Rattle.std.specs.Char.{is_ascii_digit};
ghost use Rattle.graft_runs.specs.Words.{is_number, number_within};

/// Whether each byte is a decimal digit.
fn are_digits(text: &[u8]) -> bool
    ensures { result ≡ list_all is_ascii_digit text.now }
{
    text.iter().all(|digit| digit.is_ascii_digit())
}

/// Whether a word is one to ten decimal digits.
fn is_number(word: &str) -> bool
    ensures { result ≡ is_number word.now }
{
    let digits = word.as_bytes();
    !digits.is_empty() && digits.len() <= 10 && are_digits(digits)
}

/// The number of one to ten decimal digits that a word is, where it isn't too large.
pub(crate) fn number_within(most: u64, word: &str) -> Option<u64>
    ensures number { result ≡ number_within most word.now }
    ensures within { IfSome result (λ n. n ≤ most) }
{
    if !is_number(word) {
        return None;
    }
    let Ok(number) = word.parse::<u64>() else {
        return None;
    };
    if number <= most { Some(number) } else { None }
}
