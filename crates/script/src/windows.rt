// The window: what has arrived of the script and is not settled yet stands at the front of a buffer.
ghost use Rattle.std.specs.Prelude.{◌&&◌, ◌||◌, not, ◌≡◌, ◌-◌, ◌≤◌, eqb, leb, drop, length, take};
ghost use Rattle.model.specs.Script.Windows.{report_bytes};

use crate::turns::Place;
use names::text;

// Moves what is left of the first len bytes of the window, from an index on, to its front, and answers how many bytes that is.
pub fn keep(window: &mut [u8], from: usize, len: usize) -> usize
    requires { (from ≤ len) × (len ≤ length window.old) }
    ensures { (result ≡ len - from) × (take result window.new ≡ drop from (take len window.old)) }
{
    window.copy_within(from..len, 0);
    len - from
}

// Whether the program is done after a run of len bytes: a request could not be read, or nothing is left and nothing will follow.
pub fn is_over(p: Place, len: usize, last: bool) -> bool
    ensures { result ≡ (not (eqb p.line 0) || (last && eqb p.at len)) }
{
    (p.line != 0) | last & (p.at == len)
}

// Whether a run that put n bytes of reports into a room of len bytes had room for another report. What is left of the window is then no whole
// request, and more bytes have to come before the next run.
pub fn had_room(n: usize, len: usize) -> bool
    ensures { result ≡ leb report_bytes (len - n) }
{
    if len < n {
        return false;
    }
    text::REPORT_MOST <= len - n
}
