// Many requests in one call (rule 15): the tables are checked once, and each request is put to what the requests before it left. That tables which
// passed go on passing is a theorem, and is not asked again.
#![tactic(auto)]

ghost use Rattle.names.specs.Refusals.{answer_number};
ghost use Rattle.run.specs.Contract.{AnsweredAll, RunReady, RunSettled};

use names::refusal::Refusal;
use names::{refusal, size};

// Puts the requests to the tables in order, and the number of each answer to its place; c is what the check has said of the tables. No request is copied,
// and a refused one is followed by the next.
fn answer_all(t: &mut [u32], requests: &[u32], answers: &mut [u32], c: Result<(), Refusal>)
    requires { RunReady t.old requests.now answers.old (answer_number c) }
    ensures { AnsweredAll t.old requests.now answers.old t.new answers.new }
{
    for i in 0..requests.len() / size::REQUEST_WORDS {
        let at = i * size::REQUEST_WORDS;
        answers[i] = refusal::number(step::on_checked(
            t,
            &requests[at..at + size::REQUEST_WORDS],
            c,
        ));
    }
}

// The run of any words: where the sizes fit, each request has its answer in its place; else nothing changes.
pub fn run(t: &mut [u32], requests: &[u32], answers: &mut [u32]) -> Result<(), Refusal>
    ensures { RunSettled t.old requests.now answers.old (answer_number result) t.new answers.new }
{
    if t.len() != size::TABLE_WORDS {
        return Err(Refusal::BadLength);
    }
    if requests.len() % size::REQUEST_WORDS != 0 {
        return Err(Refusal::BadLength);
    }
    if answers.len() < requests.len() / size::REQUEST_WORDS {
        return Err(Refusal::BadLength);
    }
    let c = state::judged(t);
    answer_all(t, requests, answers, c);
    Ok(())
}
