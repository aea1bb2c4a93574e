ghost use Rattle.std.specs.Prelude.{◌≡◌};
ghost use Rattle.mx_lines.specs.Numbers.{number_of};

/// Parses a whole number of 64 bits.
pub fn number_of(text: &str) -> Option<u64>
    ensures { result ≡ number_of text.now }
{
    match text.parse::<u64>() {
        Ok(number) => Some(number),
        Err(_) => None,
    }
}
