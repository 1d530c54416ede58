// The sum of what a screen shows of an entity.
ghost use Rattle.std.specs.Prelude.{◌≡◌};
ghost use Rattle.model.specs.State.Secure.{labelled};

use names::shown;

// Whether the value is shown only where the label is.
pub fn is_labelled(s: u32) -> bool
    ensures { result ≡ labelled s }
{
    !levels::has_bit(shown::VALUE, s) | levels::has_bit(shown::LABEL, s)
}
