//! Numbers as a person writes them.

ghost use Rattle.std.specs.Prelude.{◌≡◌, None, Some, if◌then◌else◌, nat_le, slice_index};
ghost use Rattle.sch_base.specs.Numbers.{is_leading, number_up_to};

/// The number that a text says: decimal, without leading zeros, from 1 to `limit`; None for another text.
pub fn number_up_to(limit: u32, text: &str) -> Option<u32>
    ensures { result ≡ number_up_to limit text.now }
{
    if !leads(text) {
        return None;
    }
    match text.parse::<u32>() {
        Ok(number) => within(limit, number),
        Err(_) => None,
    }
}

/// Whether the text begins with a digit other than 0.
fn leads(text: &str) -> bool
    ensures { result ≡ is_leading (slice_index text.now 0) }
{
    matches!(text.as_bytes(), [b'1'..=b'9', ..])
}

/// The number, if it isn't past the limit.
fn within(limit: u32, number: u32) -> Option<u32>
    ensures { result ≡ (if nat_le number limit then Some number else None) }
{
    if number <= limit { Some(number) } else { None }
}
