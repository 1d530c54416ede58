// The words of a user by name.
ghost use Rattle.std.specs.Prelude.{not, ◌≡◌, ◌<◌, ◌≤◌, suc, eqb, length};
ghost use Rattle.model.specs.Basics.Tests.{every};
ghost use Rattle.model.specs.Level.{role_count};
ghost use Rattle.model.specs.Request.Asked.{has_role};
ghost use Rattle.model.specs.Tables.Edits.{on_user, user_word};
ghost use Rattle.model.specs.Tables.Layout.{tables_of, word_count};
ghost use Rattle.model.specs.Tables.Words.{authorised, clearance, current, device, devices, held, held_op, missed, present, user_count};
ghost use Rattle.tables.specs.Singles.{UserIn, known};

use crate::records::{has_record, set_single, single};
use crate::{Entity, User};
use levels::Level;
use names::word;

// Whether user u is there: 1, or 0.
pub fn present(t: &[u32], u: User) -> u32
    requires { UserIn t.now u.0 }
    ensures { result ≡ (tables_of t.now).user u.0 present }
{
    single(t, u, word::PRESENT)
}

// The clearance of user u.
pub fn clearance(t: &[u32], u: User) -> Level
    requires { UserIn t.now u.0 }
    ensures { result.0 ≡ (tables_of t.now).user u.0 clearance }
{
    Level(single(t, u, word::CLEARANCE))
}

// The roles that user u may take.
pub fn authorised(t: &[u32], u: User) -> u32
    requires { UserIn t.now u.0 }
    ensures { result ≡ (tables_of t.now).user u.0 authorised }
{
    single(t, u, word::AUTHORISED)
}

// The roles that user u acts with.
pub fn current(t: &[u32], u: User) -> u32
    requires { UserIn t.now u.0 }
    ensures { result ≡ (tables_of t.now).user u.0 current }
{
    single(t, u, word::CURRENT)
}

// The device that user u is on; entity 0 where there is none.
pub fn device(t: &[u32], u: User) -> Entity
    requires { UserIn t.now u.0 }
    ensures { result.0 ≡ (tables_of t.now).user u.0 device }
{
    Entity(single(t, u, word::DEVICE))
}

// The refusal that user u has not read; 0 where there is none.
pub fn held(t: &[u32], u: User) -> u32
    requires { UserIn t.now u.0 }
    ensures { result ≡ (tables_of t.now).user u.0 held }
{
    single(t, u, word::HELD)
}

// The operation of the refusal held.
pub fn held_op(t: &[u32], u: User) -> u32
    requires { UserIn t.now u.0 }
    ensures { result ≡ (tables_of t.now).user u.0 held_op }
{
    single(t, u, word::HELD_OPERATION)
}

// How many refusals user u has missed since the last acknowledgement.
pub fn missed(t: &[u32], u: User) -> u32
    requires { UserIn t.now u.0 }
    ensures { result ≡ (tables_of t.now).user u.0 missed }
{
    single(t, u, word::MISSED)
}

// Sets the clearance of user u to v, and no other word.
pub fn set_clearance(t: &mut [u32], u: User, v: Level)
    requires { UserIn t.old u.0 }
    ensures { tables_of t.new ≡ on_user u.0 (user_word clearance v.0) (tables_of t.old) }
{
    set_single(t, u, word::CLEARANCE, v.0);
}

// Sets the roles that user u may take to v, and no other word.
pub fn set_authorised(t: &mut [u32], u: User, v: u32)
    requires { UserIn t.old u.0 }
    ensures { tables_of t.new ≡ on_user u.0 (user_word authorised v) (tables_of t.old) }
{
    set_single(t, u, word::AUTHORISED, v);
}

// Sets the roles that user u acts with to v, and no other word.
pub fn set_current(t: &mut [u32], u: User, v: u32)
    requires { UserIn t.old u.0 }
    ensures { tables_of t.new ≡ on_user u.0 (user_word current v) (tables_of t.old) }
{
    set_single(t, u, word::CURRENT, v);
}

// Puts user u on device v, on none where v is entity 0, and changes no other word.
pub fn set_device(t: &mut [u32], u: User, v: Entity)
    requires { UserIn t.old u.0 }
    ensures { tables_of t.new ≡ on_user u.0 (user_word device v.0) (tables_of t.old) }
{
    set_single(t, u, word::DEVICE, v.0);
}

// Sets the refusal that user u has not read to v, and no other word.
pub fn set_held(t: &mut [u32], u: User, v: u32)
    requires { UserIn t.old u.0 }
    ensures { tables_of t.new ≡ on_user u.0 (user_word held v) (tables_of t.old) }
{
    set_single(t, u, word::HELD, v);
}

// Sets the operation of the refusal held to v, and no other word.
pub fn set_held_op(t: &mut [u32], u: User, v: u32)
    requires { UserIn t.old u.0 }
    ensures { tables_of t.new ≡ on_user u.0 (user_word held_op v) (tables_of t.old) }
{
    set_single(t, u, word::HELD_OPERATION, v);
}

// Sets the count of refusals of user u to v, and no other word.
pub fn set_missed(t: &mut [u32], u: User, v: u32)
    requires { UserIn t.old u.0 }
    ensures { tables_of t.new ≡ on_user u.0 (user_word missed v) (tables_of t.old) }
{
    set_single(t, u, word::MISSED, v);
}

// Whether n is the number of a user who is there.
pub fn is_known(t: &[u32], n: u32) -> bool
    requires { length t.now ≡ word_count }
    ensures { result ≡ known (tables_of t.now) n }
{
    has_record(User(n)) && present(t, User(n)) != 0
}

// Whether user u acts with the role of bit r.
pub fn has_role(t: &[u32], u: User, r: u32) -> bool
    requires { UserIn t.now u.0 × (r < role_count) }
    ensures { result ≡ has_role (tables_of t.now) u.0 r }
{
    levels::has_bit(r, current(t, u))
}

// Whether none of the first n users is on device e.
pub fn nobody_on(t: &[u32], e: Entity, n: u32) -> bool
    requires { (length t.now ≡ word_count) × (n ≤ user_count) }
    ensures { result ≡ every n (λ u. not (eqb (devices (tables_of t.now) (suc u)) e.0)) }
{
    for i in 0..n {
        if device(t, User(i + 1)) == e {
            return false;
        }
    }
    true
}
