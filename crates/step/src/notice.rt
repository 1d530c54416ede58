// What a refusal leaves (rule 8.2): the notice of its requester. The step alone leaves it.
ghost use Rattle.std.specs.Prelude.{◌≡◌, ltb};
ghost use Rattle.model.specs.Effect.Notice.{missed_more, notice};
ghost use Rattle.model.specs.Tables.Layout.{tables_of};
ghost use Rattle.model.specs.Tables.Words.{missed_most};
ghost use Rattle.tables.specs.Singles.{UserIn};

use names::range;
use tables::User;

// The number of missed refusals, one more; it stops at its most.
fn one_more(m: u32) -> u32
    ensures { result ≡ missed_more (ltb m missed_most) m }
{
    if m < range::MISSED_MOST {
        return m + 1;
    }
    range::MISSED_MOST
}

// Leaves user u a notice of refusal n of operation o. The first one unread is kept, and one more is missed.
pub fn leave(t: &mut [u32], u: User, n: u32, o: u32)
    requires { UserIn t.old u.0 }
    ensures { tables_of t.new ≡ notice u.0 n o (tables_of t.old) }
{
    let h = tables::held(t, u);
    let m = one_more(tables::missed(t, u));
    tables::set_missed(t, u, m);
    if 0 < h {
        return;
    }
    tables::set_held_op(t, u, o);
    tables::set_held(t, u, n);
}
