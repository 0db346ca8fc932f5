//! Numbers, as files spell them.

ghost use Rattle.std.specs.Prelude.{◌≡◌, ◌≢◌, ◌<◌, ◌^◌, ℕ, IfSome, IfNone, decimal};
ghost use Rattle.std.specs.Option.{SomeIff};
ghost use Rattle.std.specs.Str.Parse.{AllDigits, digits_value};

/// The number that is spelled so, if any: `0`, or digits of which the first is not 0.
pub(crate) fn number(word: &[u8]) -> Option<u64>
    ensures some { IfSome result (λ n. word.now ≡ decimal n) }
    ensures none { IfNone result ((n : ℕ) → n < 2 ^ 64 → word.now ≢ decimal n) }
{
    let [first, ..] = word else {
        return None;
    };
    if *first == b'0' && word.len() > 1 {
        return None;
    }
    digits(word)
}

/// The number that the digits are, if all are digits and it is below 2^64.
fn digits(word: &[u8]) -> Option<u64>
    ensures { let value = digits_value 10 word.now in
        SomeIff result (AllDigits 10 word.now × (value < 2 ^ 64)) value }
{
    let mut value: u64 = 0;
    for byte in word {
        if !byte.is_ascii_digit() {
            return None;
        }
        value = value.checked_mul(10)?.checked_add(u64::from(*byte - b'0'))?;
    }
    Some(value)
}
