// Writes numbers and lines (rules 11.2 and 11.3). Each writer writes at the front of the part of the output that it is lent, leaves what
// stands after that, and answers how many bytes it wrote.
ghost use Rattle.std.specs.Prelude.{◌≡◌, ◌+◌, ◌<◌, ◌≤◌, length};
ghost use Rattle.lines.specs.Four.{four};
ghost use Rattle.lines.specs.Onto.{Puts, Wrote};
ghost use Rattle.model.specs.Text.Lines.{line};
ghost use Rattle.model.specs.Text.Numbers.{digits};

use names::text;

// How many digits a number has. Four of them are counted in one go.
pub fn number_len(v: u32) -> usize
    ensures { result ≡ length (digits v) }
{
    if v < 10 {
        return 1;
    }
    if v < 100 {
        return 2;
    }
    if v < 1000 {
        return 3;
    }
    if v < 10000 {
        return 4;
    }
    number_len(v / 10000) + 4
}

// Writes the four digits of a number below 10,000, with zeros in front where it has fewer.
fn write_four(out: &mut [u8], v: u32) -> usize
    requires { (v < 10000) × (4 ≤ length out.old) }
    ensures { Wrote (four v) out.old out.new result }
{
    let a = v / 1000;
    let b = v / 100;
    let c = v / 10;
    out[0] = text::DIGIT_0 + a as u8;
    out[1] = text::DIGIT_0 + (b - a * 10) as u8;
    out[2] = text::DIGIT_0 + (c - b * 10) as u8;
    out[3] = text::DIGIT_0 + (v - c * 10) as u8;
    4
}

// Writes the digits of a number below 10,000.
fn write_short(out: &mut [u8], v: u32) -> usize
    requires { (v < 10000) × (length (digits v) ≤ length out.old) }
    ensures { Wrote (digits v) out.old out.new result }
{
    if v < 10 {
        out[0] = text::DIGIT_0 + v as u8;
        return 1;
    }
    let c = v / 10;
    if v < 100 {
        out[0] = text::DIGIT_0 + c as u8;
        out[1] = text::DIGIT_0 + (v - c * 10) as u8;
        return 2;
    }
    if v < 1000 {
        let b = v / 100;
        out[0] = text::DIGIT_0 + b as u8;
        out[1] = text::DIGIT_0 + (c - b * 10) as u8;
        out[2] = text::DIGIT_0 + (v - c * 10) as u8;
        return 3;
    }
    write_four(out, v)
}

// Writes the digits of a number below 100,000,000: those of its ten thousands, then four more.
fn write_middle(out: &mut [u8], v: u32) -> usize
    requires { (v < 100000000) × (length (digits v) ≤ length out.old) }
    ensures { Wrote (digits v) out.old out.new result }
{
    if v < 10000 {
        return write_short(out, v);
    }
    let n = write_short(out, v / 10000);
    let m = write_four(&mut out[n..], v % 10000);
    n + m
}

// Writes the digits of a number: a single digit at once, and of a long number those of its ten thousands, then four more.
pub fn write_number(out: &mut [u8], v: u32) -> usize
    requires { length (digits v) ≤ length out.old }
    ensures { Wrote (digits v) out.old out.new result }
{
    if v < 10 {
        out[0] = text::DIGIT_0 + v as u8;
        return 1;
    }
    if v < 10000 {
        return write_short(out, v);
    }
    let n = write_middle(out, v / 10000);
    let m = write_four(&mut out[n..], v % 10000);
    n + m
}

// Writes some bytes as they are, one after another: where they are a key that the call spells, the compiler makes a move or two of the loop, and of
// `copy_from_slice` it makes moves after a test whether the two places overlap.
pub fn write_bytes(out: &mut [u8], src: &[u8]) -> usize
    requires { length src.now ≤ length out.old }
    ensures { Wrote src.now out.old out.new result }
{
    for i in 0..src.len() {
        out[i] = src[i];
    }
    src.len()
}

// Writes a line: a key with its equals sign, the number directly after it in the same bytes, and LF.
pub fn write_line(out: &mut [u8], key: &[u8], v: u32) -> usize
    requires { length (line key.now (digits v)) ≤ length out.old }
    ensures { Wrote (line key.now (digits v)) out.old out.new result }
{
    let k = write_bytes(out, key);
    let n = write_number(&mut out[k..], v);
    let end = k + n;
    out[end] = text::LINE_END;
    end + 1
}

// Writes a line at an index of the output, and answers the index after it.
pub fn put_line(out: &mut [u8], at: usize, key: &[u8], v: u32) -> usize
    requires { at + length (line key.now (digits v)) ≤ length out.old }
    ensures { Puts (line key.now (digits v)) out.old at out.new result }
{
    let n = write_line(&mut out[at..], key, v);
    at + n
}
