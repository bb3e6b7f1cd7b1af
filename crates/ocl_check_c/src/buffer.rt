//! Answers in buffers that a caller lends.

ghost use Rattle.std.specs.Prelude.{◌≡◌};
ghost use Rattle.ocl_check_c.specs.Buffers.{copied};

/// Writes the bytes of a text over those of a buffer, as far as there is room.
pub(crate) fn copy_into(out: &mut [u8], text: &[u8])
    ensures { out.new ≡ copied text.now out.old }
{
    if text.len() <= out.len() {
        let (front, _rest) = out.split_at_mut(text.len());
        front.copy_from_slice(text);
    } else {
        let count = out.len();
        out.copy_from_slice(&text[..count]);
    }
}
