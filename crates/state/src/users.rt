// The records of the users, each by itself, and who is on which device.
ghost use Rattle.std.specs.Prelude.{◌≡◌, ◌+◌, ◌<◌, suc, eqb, length};
ghost use Rattle.model.specs.Basics.Tests.{every};
ghost use Rattle.model.specs.State.Tests.{notice_test, user_test};
ghost use Rattle.model.specs.Tables.Layout.{tables_of, user_width, word_count};
ghost use Rattle.model.specs.Tables.WordAt.{user_word_at};
ghost use Rattle.model.specs.Tables.Words.{spare, spare_count, user_count};
ghost use Rattle.state.specs.Passes.{on_device, user_blank, user_head};
ghost use Rattle.tables.specs.Singles.{UserIn};

use names::{range, size, word};
use tables::User;

// Whether word f of user u is zero.
fn word_zero(t: &[u32], u: User, f: usize) -> bool
    requires { UserIn t.now u.0 × (f < user_width) }
    ensures { result ≡ eqb ((tables_of t.now).user u.0 (user_word_at f)) 0 }
{
    tables::word_at(t, u, f) == 0
}

// Whether all words of user u are zero.
fn user_blank(t: &[u32], u: User) -> bool
    requires { UserIn t.now u.0 }
    ensures { result ≡ user_blank (tables_of t.now) u.0 }
{
    let mut blank = true;
    for f in 0..size::USER_WORDS {
        blank = word_zero(t, u, f) & blank;
    }
    blank
}

// Whether the spare words of user u are zero.
fn spares_zero(t: &[u32], u: User) -> bool
    requires { UserIn t.now u.0 }
    ensures { result ≡ every spare_count (λ i. eqb ((tables_of t.now).user u.0 (spare i)) 0) }
{
    let mut blank = true;
    for f in 0..size::SPARES {
        blank = word_zero(t, u, word::USER_SPARES + f) & blank;
    }
    blank
}

// Whether a refusal h of an operation o, with n missed, is a notice as it should be.
fn notice_fine(h: u32, o: u32, n: u32) -> bool
    ensures { result ≡ notice_test h o n }
{
    ((h == 0) | ((range::FIRST_NOTICED <= h) & (h <= range::LAST_NOTICED)))
        & ((o <= range::OPERATION_MOST)
            & ((n <= range::MISSED_MOST)
                & ((!(h == 0) | (n == 0)) & ((!(n == 0) | (h == 0)) & (!(h == 0) | (o == 0))))))
}

// Whether the words before the notice of a user who is there are in their ranges: presence p, clearance c, roles authorised a and current r,
// and device d.
fn user_head(p: u32, c: u32, a: u32, r: u32, d: u32) -> bool
    ensures { result ≡ user_head p c a r d }
{
    (p <= range::PRESENT_MOST)
        & ((c < range::LEVELS)
            & ((a < range::ROLE_SETS) & ((r < range::ROLE_SETS) & (!(d == 0) | (r == 0)))))
}

// Whether the record of user u is in order by itself.
fn user_fine(t: &[u32], u: User) -> bool
    requires { UserIn t.now u.0 }
    ensures { result ≡ user_test ((tables_of t.now).user u.0) }
{
    let p = tables::present(t, u);
    if p == 0 {
        return user_blank(t, u);
    }
    if !user_head(
        p,
        tables::clearance(t, u).0,
        tables::authorised(t, u),
        tables::current(t, u),
        tables::device(t, u).0,
    ) {
        return false;
    }
    if !notice_fine(
        tables::held(t, u),
        tables::held_op(t, u),
        tables::missed(t, u),
    ) {
        return false;
    }
    spares_zero(t, u)
}

// Whether every user's record is in order by itself.
pub fn users_fine(t: &[u32]) -> bool
    requires { length t.now ≡ word_count }
    ensures { result ≡ every user_count (λ u. user_test ((tables_of t.now).user (suc u))) }
{
    (0..size::USERS).all(|i| user_fine(t, User(i + 1)))
}

// Whether user u is off, or on a device on which no user of a lower number is.
fn device_fine(t: &[u32], u: User) -> bool
    requires { UserIn t.now u.0 }
    ensures { result ≡ on_device (tables_of t.now) u.0 }
{
    let d = tables::device(t, u);
    let n = d.0;
    if n == 0 {
        return true;
    }
    if !tables::is_terminal(tables::kind_or_zero(t, d)) {
        return false;
    }
    tables::nobody_on(t, d, u.0 - 1)
}

// Whether each user who is on is on a device alone.
pub fn devices_fine(t: &[u32]) -> bool
    requires { length t.now ≡ word_count }
    ensures { result ≡ every user_count (λ u. on_device (tables_of t.now) (suc u)) }
{
    (0..size::USERS).all(|i| device_fine(t, User(i + 1)))
}
