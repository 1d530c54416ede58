// The level of a device is set only where the tables stay secure: what it can break is asked before.
ghost use Rattle.ladder.specs.Trial.{Tried};
ghost use Rattle.model.specs.Effect.Words.{set_level};
ghost use Rattle.model.specs.State.Secure.{Good};
ghost use Rattle.model.specs.Tables.Layout.{tables_of};
ghost use Rattle.model.specs.Tables.Kinds.{Screen};
ghost use Rattle.model.specs.Tables.Words.{kinds};
ghost use Rattle.names.specs.Refusals.{answer_number};
ghost use Rattle.tables.specs.Singles.{EntityIn};

use levels::Level;
use names::refusal::Refusal;
use tables::Entity;

// Sets the level of device e to a, if the tables are secure then. If they are not, it refuses, and nothing has changed. The tables were good,
// and a device stands in nothing, so what it shows and its maximum decide.
pub fn try_device_level(t: &mut [u32], e: Entity, a: Level) -> Result<(), Refusal>
    requires { EntityIn t.old e.0 × Good (tables_of t.old) × Screen (kinds (tables_of t.old) e.0) }
    ensures { Tried (set_level e.0 a.0 (tables_of t.old)) t.old (answer_number result) t.new }
{
    if !levels::at_most(a, tables::maximum(t, e)) {
        return Err(Refusal::LevelOrRoles);
    }
    if !rows::all_at_most(t, e, a, tables::used(t, e)) {
        return Err(Refusal::LevelOrRoles);
    }
    tables::set_level(t, e, a);
    Ok(())
}
