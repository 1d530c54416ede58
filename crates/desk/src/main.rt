// The desk as a program. The tables come from the file state.words, the requests from standard input, and the reports go to standard output.
// The functions of `script` decide all that is decided; here bytes are moved.
#![tactic(auto)]

ghost use Rattle.std.specs.Prelude.{true, ◌≡◌, ◌<◌, ◌≤◌, length, take};
ghost use Rattle.names.specs.Refusals.{answer_number};
ghost use Rattle.desk.specs.Serving.{ServeReady};

use names::refusal::Refusal;
use names::size;
use std::io::{Read, Write};
use std::rt::Files;
use std::{fs, io};

// How many bytes of the script, and how many of reports, are held at a time.
const HELD: usize = 65_536;

// Reads the bytes of the state file to the front of the room, and answers how many there are: none where there is no such file, or it cannot be
// read.
fn read_state(rt: &impl Files, room: &mut [u8]) -> usize
    ensures { result ≤ length room.new }
{
    let Ok(mut file) = fs::open(rt, "state.words") else {
        return 0;
    };
    let mut n = 0;
    while n < room.len() {
        match file.read(&mut room[n..]) {
            Ok(got) if got > 0 => n += got,
            _ => break,
        }
    }
    n
}

// Reads once after the first len bytes of the window, if more are wanted, and answers how many bytes there are then. The bytes that wait in the
// window stay. A read that fails is told, and brings nothing.
fn fetch<I: Read>(
    rt: &impl Eprint,
    input: &mut I,
    window: &mut [u8],
    len: usize,
    wanted: bool,
) -> usize
    requires { (len ≤ length window.old) × (wanted ≡ true → len < length window.old) }
    ensures { (len ≤ result) × (result ≤ length window.old) × (take len window.new ≡ take len window.old) }
{
    if !wanted {
        return len;
    }
    match input.read(&mut window[len..]) {
        Ok(got) => len + got,
        Err(error) => {
            fail(rt, "standard input", &error);
            len
        }
    }
}

// Writes reports, or tells that they cannot be written.
fn put(rt: &(impl Print + Eprint), reports: &[u8]) -> bool {
    match rt.write_all(reports) {
        Ok(()) => true,
        Err(error) => {
            fail(rt, "standard output", &error);
            false
        }
    }
}

// Says on standard error what failed, and the system's words for why, which stand before its number for it.
fn fail(rt: &impl Eprint, what: &str, error: &io::Error) {
    let mut text = [0u8; 128];
    let mut rest = &mut text[..];
    let _ = write!(rest, "{error}");
    let left = rest.len();
    let n = text.len().saturating_sub(left);
    let said = str::from_utf8(&text[..n]).unwrap_or("");
    let why = match said.split_once(" (os error ") {
        Some((words, _)) => words,
        None => said,
    };
    let _ = eprintln!(rt; "{what}: {why}");
}

// Runs what arrives of the script, piece by piece, and writes the reports of each piece before it asks for the next. A loop must be seen to
// end, and nothing says that input does. So it has a number of turns that no script uses up. What the check has said of the tables, c, goes
// from run to run.
fn serve<I: Read>(
    rt: &(impl Print + Eprint),
    input: &mut I,
    tables: &mut [u32],
    window: &mut [u8],
    out: &mut [u8],
    c: Result<(), Refusal>,
)
    requires { ServeReady tables.old window.old (answer_number c) }
{
    let mut len: usize = 0;
    let mut wanted = true;
    let mut last = false;
    for _ in 0..u64::MAX {
        let filled = fetch(rt, input, window, len, wanted);
        last = last | wanted & (filled == len);
        let r = script::runs::run(tables, &window[..filled], last, out, c);
        if !put(rt, &out[..r.bytes]) {
            return;
        }
        let place = r.place;
        if script::windows::is_over(place, filled, last) {
            return;
        }
        wanted = script::windows::had_room(r.bytes, out.len());
        len = script::windows::keep(window, place.at, filled);
    }
}

// The file has room for a byte too many, so that a longer file is seen. The tables are checked here and nowhere else: what the check says of them
// stays so whatever is asked.
fn main(rt: HostRuntime) {
    let mut file = [0u8; size::STATE_BYTES + 1];
    let size = read_state(&rt, &mut file);
    let mut tables = [0u32; size::TABLE_WORDS];
    let n = script::state_file::load(&file[..size], &mut tables);
    let c = state::checked(&tables[..n]);
    let mut input = rt.stdin();
    let mut window = [0u8; HELD];
    let mut out = [0u8; HELD];
    serve(&rt, &mut input, &mut tables[..n], &mut window, &mut out, c);
}
