//! Numbers in words.

ghost use Rattle.std.specs.Prelude.{◌≡◌};
ghost use Rattle.command_words.specs.Words.{number_within};

/// The number that a word is, of decimal digits, before which a plus may stand, where it lies
/// between these bounds.
pub(crate) fn number_within(least: u64, most: u64, word: &str) -> Option<u64>
    ensures { result ≡ number_within least most word.now }
{
    match word.parse::<u64>() {
        Ok(number) if least <= number && number <= most => Some(number),
        _ => None,
    }
}
