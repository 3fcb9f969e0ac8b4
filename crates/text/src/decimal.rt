// Decimal numbers read from text.
ghost use Rattle.std.specs.Prelude.{◌≡◌, ◌≤◌, length};
ghost use Rattle.text.specs.Decimal.{digits_in, number_in};

// How many digits stand at the front of a text.
pub(crate) fn digits_in(text: &[u8]) -> usize
    ensures count { result ≡ digits_in text.now }
    ensures inside { result ≤ length text.now }
{
    text.iter().take_while(|byte| byte.is_ascii_digit()).count()
}

// The number of one to eighteen digits; any other text is none. The digits are counted, since `parse` takes a plus sign too.
#[tactic(auto, using(crate::proofs::DecimalText::number_long, crate::proofs::DecimalText::number_other, crate::proofs::DecimalText::digits_text, crate::proofs::DecimalText::number_parsed))]
pub fn number(text: &[u8]) -> Option<u64>
    ensures { result ≡ number_in text.now }
{
    if text.len() > 18 || digits_in(text) != text.len() {
        return None;
    }
    str::from_utf8(text).ok()?.parse::<u64>().ok()
}
