// The operations on access triples: 8 grant and 9 revoke.
#![tactic(auto)]

ghost use Rattle.std.specs.Prelude.{◌≡◌};
ghost use Rattle.ladder.specs.Contract.{First, Judged, Taking};
ghost use Rattle.model.specs.Request.Operations.{to_grant, to_revoke};
ghost use Rattle.names.specs.Refusals.{answer_number};
ghost use Rattle.op_triples.specs.Named.{Named, triple_in};

use names::refusal::Refusal;
use names::size;
use tables::{Entity, User};

// The triple that a request names.
fn named_triple(q: &[u32]) -> u32
    requires { Named q.now }
    ensures { result ≡ triple_in q.now }
{
    tables::triples::triple_of(request::a(q), request::b(q), request::c(q))
}

// Operation 8 gives entity e the triple that the request names, as its last. A triple that is there already stays.
pub fn grant(t: &mut [u32], q: &[u32], u: User, e: Entity) -> Result<(), Refusal>
    requires { Taking to_grant t.old q.now u.0 × First t.old q.now e.0 }
    ensures { Judged t.old q.now (answer_number result) t.new }
{
    if !ladder::kinds::is_any(t, e) {
        return Err(Refusal::WrongKind);
    }
    let x = named_triple(q);
    if rows::triple_place(t, e, x) < size::TRIPLES {
        return Ok(());
    }
    let n = rows::triple_place(t, e, 0);
    if size::TRIPLES <= n {
        return Err(Refusal::NoRoom);
    }
    tables::set_triple(t, e, n, x);
    Ok(())
}

// Operation 9 takes from entity e the triple that the request names, and closes up those after it.
pub fn revoke(t: &mut [u32], q: &[u32], u: User, e: Entity) -> Result<(), Refusal>
    requires { Taking to_revoke t.old q.now u.0 × First t.old q.now e.0 }
    ensures { Judged t.old q.now (answer_number result) t.new }
{
    if !ladder::kinds::is_any(t, e) {
        return Err(Refusal::WrongKind);
    }
    let k = rows::triple_place(t, e, named_triple(q));
    if size::TRIPLES <= k {
        return Ok(());
    }
    rows::close_triples(t, e, k);
    Ok(())
}
