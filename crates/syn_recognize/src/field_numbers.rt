//! The numbers of fields.
ghost use Rattle.syn_recognize.specs.FieldNumbers.{IsFieldNumber};

/// The number of a field with these digits, which begin with no sign, and with no zero but `0` itself.
#[tactic(auto, using(crate::proofs::Numbers::no_number))]
pub fn field_number(text: &str) -> Option<u32>
    ensures { IsFieldNumber text.now result }
{
    let first = *text.as_bytes().first()?;
    if first == b'+' || (first == b'0' && text.len() > 1) {
        return None;
    }
    text.parse().ok()
}
