// A clearance is set only where the tables stay secure: what it can break is asked before.
ghost use Rattle.ladder.specs.Trial.{Tried};
ghost use Rattle.model.specs.Effect.Words.{set_clearance};
ghost use Rattle.model.specs.State.Secure.{Good};
ghost use Rattle.model.specs.Tables.Layout.{tables_of};
ghost use Rattle.names.specs.Refusals.{answer_number};
ghost use Rattle.tables.specs.Singles.{UserIn};

use levels::Level;
use names::refusal::Refusal;
use tables::User;

// Sets the clearance of user u to a, if the tables are secure then. If they are not, it refuses, and nothing has changed. The tables were good, so
// only what u is shown can be above it.
pub fn try_clearance(t: &mut [u32], u: User, a: Level) -> Result<(), Refusal>
    requires { UserIn t.old u.0 × Good (tables_of t.old) }
    ensures { Tried (set_clearance u.0 a.0 (tables_of t.old)) t.old (answer_number result) t.new }
{
    let v = tables::device(t, u);
    if v.0 == 0 {
        tables::set_clearance(t, u, a);
        return Ok(());
    }
    if !rows::all_at_most(t, v, a, tables::used(t, v)) {
        return Err(Refusal::LevelOrRoles);
    }
    tables::set_clearance(t, u, a);
    Ok(())
}
