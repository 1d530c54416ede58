// Copies words that were read in a room of the reader's own to those that it is lent.
ghost use Rattle.std.specs.Prelude.{◌≡◌, length};

// Copies as many words as there are.
pub fn copy_words(out: &mut [u32], src: &[u32])
    requires { length out.old ≡ length src.now }
    ensures { out.new ≡ src.now }
{
    out.copy_from_slice(src);
}
