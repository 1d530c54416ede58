// The disclosure list: the refusals that it may give, then the verdicts on the entities, then how many entries there are and, where the room
// suffices for them, the walk that writes them.
#![tactic(auto)]

ghost use Rattle.std.specs.Prelude.{◌≡◌};
ghost use Rattle.disclosure.specs.Contract.{Listing};
ghost use Rattle.model.specs.List.Listing.{barred};
ghost use Rattle.names.specs.Refusals.{answer_number};

use names::refusal::{Refusal, Refused};
use names::size;
use tables::User;
use walk::Guide;

mod sizes;
mod tally;
mod walk;

// The first refusal that applies: that of the state check, of an unknown requester, or of one who is not logged on.
fn admit(t: &[u32], user: u32) -> Result<(), Refusal>
    ensures { answer_number result ≡ barred t.now user }
{
    state::checked(t)?;
    if !tables::is_known(t, user) {
        return Err(Refusal::UnknownRequester);
    }
    if tables::device(t, User(user)).0 == 0 {
        return Err(Refusal::NotLoggedOn);
    }
    Ok(())
}

// The list of a user who was let in, and how many entries there are: in the room, or needed. Nothing is written where the room is too short,
// and nothing is walked where there are no entries.
fn disclose(t: &[u32], u: User, room: &mut [u32]) -> Result<u32, Refused>
    requires { barred t.now u.0 ≡ 0 }
    ensures { Listing t.now u.0 room.old result room.new }
{
    let mut v = [verdicts::NONE; size::ENTITY_NUMBERS];
    verdicts::judge_all(t, u, &mut v);
    let mut b = [0u32; sizes::TALLIES];
    let n = tally::tally_all(t, &v, &mut b);
    if n == 0 {
        return Ok(0);
    }
    let need = n as usize * size::ENTRY_WORDS;
    if room.len() < need {
        return Err(Refused {
            by: Refusal::TooShort,
            number: n,
        });
    }
    let guide = Guide {
        tables: t,
        verdicts: &v,
        tallies: &b,
    };
    walk::visit_all(&guide, room);
    Ok(n)
}

// The list of any words, any number of a user and any room: how many entries were written, or the refusal, with the need where the room is too short.
pub fn list(t: &[u32], user: u32, room: &mut [u32]) -> Result<u32, Refused>
    ensures { Listing t.now user room.old result room.new }
{
    admit(t, user)?;
    disclose(t, User(user), room)
}
