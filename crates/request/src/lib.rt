// A request: sixteen lent words, read by name.
#![tactic(auto)]

ghost use Rattle.std.specs.Prelude.{◌≡◌, ◌+◌, ◌<◌, ◌≤◌, length};
ghost use Rattle.model.specs.Request.Ladder.{names_fit};
ghost use Rattle.model.specs.Request.Words.{name_count, names, reference_at, request_of, request_words};

use names::word;

// The name words of a reference, counted from the word of its length, and lengths short of the four that there may be.
const FIRST: usize = 1;

const SECOND: usize = 2;

const THIRD: usize = 3;

const FOURTH: usize = 4;

const TWO: u32 = 2;

const THREE: u32 = 3;

// Who asks.
pub fn requester(q: &[u32]) -> u32
    requires { length q.now ≡ request_words }
    ensures { result ≡ (request_of q.now).user }
{
    q[word::REQUESTER]
}

// The number of the operation.
pub fn operation(q: &[u32]) -> u32
    requires { length q.now ≡ request_words }
    ensures { result ≡ (request_of q.now).operation }
{
    q[word::OPERATION]
}

// How many names the first reference has.
pub fn first_length(q: &[u32]) -> u32
    requires { length q.now ≡ request_words }
    ensures { result ≡ (request_of q.now).first.length }
{
    q[word::FIRST]
}

// How many names the second reference has.
pub fn second_length(q: &[u32]) -> u32
    requires { length q.now ≡ request_words }
    ensures { result ≡ (request_of q.now).second.length }
{
    q[word::SECOND]
}

// Argument a.
pub fn a(q: &[u32]) -> u32
    requires { length q.now ≡ request_words }
    ensures { result ≡ (request_of q.now).a }
{
    q[word::A]
}

// Argument b.
pub fn b(q: &[u32]) -> u32
    requires { length q.now ≡ request_words }
    ensures { result ≡ (request_of q.now).b }
{
    q[word::B]
}

// Argument c.
pub fn c(q: &[u32]) -> u32
    requires { length q.now ≡ request_words }
    ensures { result ≡ (request_of q.now).c }
{
    q[word::C]
}

// The last word, which no operation uses.
pub fn spare(q: &[u32]) -> u32
    requires { length q.now ≡ request_words }
    ensures { result ≡ (request_of q.now).last }
{
    q[word::SPARE]
}

// The names of the first reference: as many words after its length as that says.
pub fn first_names(q: &[u32]) -> &[u32]
    requires { (length q.now ≡ request_words) × ((request_of q.now).first.length ≤ name_count) }
    ensures { result.now ≡ names (request_of q.now).first }
{
    let end = word::FIRST_NAMES + q[word::FIRST] as usize;
    &q[word::FIRST_NAMES..end]
}

// The names of the second reference.
pub fn second_names(q: &[u32]) -> &[u32]
    requires { (length q.now ≡ request_words) × ((request_of q.now).second.length ≤ name_count) }
    ensures { result.now ≡ names (request_of q.now).second }
{
    let end = word::SECOND_NAMES + q[word::SECOND] as usize;
    &q[word::SECOND_NAMES..end]
}

// Whether the name words after the names of the reference whose length is word k are zero. The last one is looked at first: most
// references are short, and the first test that fails decides.
pub fn names_fit(q: &[u32], k: usize) -> bool
    requires { k + name_count < length q.now }
    ensures { result ≡ names_fit (reference_at q.now k) }
{
    let n = q[k];
    if THREE < n {
        return true;
    }
    if q[k + FOURTH] != 0 {
        return false;
    }
    if TWO < n {
        return true;
    }
    if q[k + THIRD] != 0 {
        return false;
    }
    if 1 < n {
        return true;
    }
    if q[k + SECOND] != 0 {
        return false;
    }
    if 0 < n {
        return true;
    }
    q[k + FIRST] == 0
}
