// The state check: whether lent words are well-formed tables, and secure ones.
#![tactic(auto)]

ghost use Rattle.std.specs.Prelude.{◌≡◌, length};
ghost use Rattle.model.specs.State.Check.{check, judge};
ghost use Rattle.model.specs.Tables.Layout.{tables_of, word_count};
ghost use Rattle.names.specs.Refusals.{answer_number};

use names::refusal::Refusal;
use names::size;

mod access;
mod entities;
mod tree;
mod users;

// The refusal of tables that are not well-formed, else of tables that are not secure, else none. The entities are gone over once; what joins them is asked of
// the list of holders, and what a user is shown comes last.
pub fn judged(t: &[u32]) -> Result<(), Refusal>
    requires { length t.now ≡ word_count }
    ensures { answer_number result ≡ judge (tables_of t.now) }
{
    if !users::users_fine(t) {
        return Err(Refusal::NotWellFormed);
    }
    if !users::devices_fine(t) {
        return Err(Refusal::NotWellFormed);
    }
    let mut h = [0u32; size::ENTITY_NUMBERS];
    let kept = entities::entities_judged(t, &mut h)?;
    if !tree::all_end(&h) {
        return Err(Refusal::NotWellFormed);
    }
    if !kept {
        return Err(Refusal::NotSecure);
    }
    if !secure::users_secure(t) {
        return Err(Refusal::NotSecure);
    }
    Ok(())
}

// The state check of any words: the refusal of a wrong number of them, else as judged.
pub fn checked(t: &[u32]) -> Result<(), Refusal>
    ensures { answer_number result ≡ check t.now }
{
    if t.len() != size::TABLE_WORDS {
        return Err(Refusal::BadLength);
    }
    judged(t)
}
