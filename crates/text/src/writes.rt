// Bytes written into a lent buffer from a place on. What would lie past the buffer's end is not stored. Buffer and place are no struct: each
// caller computes the place that it stores at, and the contracts say `sets` of both.
ghost use Rattle.std.specs.Prelude.{◌≡◌, [], ◌∷◌, ◌+◌, set};
ghost use Rattle.std.proofs.lemmas.List.Edits.{sets};

pub fn write_byte(buf: &mut [u8], at: usize, byte: u8)
    ensures { buf.new ≡ sets buf.old at (byte ∷ []) }
{
    if at < buf.len() {
        buf[at] = byte;
    }
}

// A byte stored `i` places after `at`.
pub(crate) fn store(buf: &mut [u8], at: usize, i: usize, byte: u8)
    ensures { buf.new ≡ set buf.old (at + i) byte }
{
    if at < buf.len() {
        if i < buf.len() - at {
            buf[at + i] = byte;
        }
    }
}

pub fn write_text(buf: &mut [u8], at: usize, text: &[u8])
    ensures { buf.new ≡ sets buf.old at text.now }
{
    for (i, x) in text.iter().enumerate() {
        store(buf, at, i, *x);
    }
}
