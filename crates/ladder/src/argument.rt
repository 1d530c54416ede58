// Rule 5.4: the ranges of arguments.
ghost use Rattle.std.specs.Prelude.{◌≡◌};
ghost use Rattle.model.specs.Request.Conditions.{a_flag, a_level, a_position, a_sort, a_sum, a_user, a_who, an_operation, some_roles, unused};

use names::{range, size};

// Whether an argument that has no use is 0.
#[tactic(auto, unfolding(model::specs::Request::Conditions::unused))]
pub fn is_unused(n: u32) -> bool
    ensures { result ≡ unused n }
{
    n == 0
}

// Whether n is a sort of what is created.
#[tactic(auto, unfolding(model::specs::Request::Conditions::a_sort, model::specs::Request::Conditions::between))]
pub fn is_sort(n: u32) -> bool
    ensures { result ≡ a_sort n }
{
    (1 <= n) & (n <= range::SORT_MOST)
}

// Whether n is a level.
#[tactic(auto, unfolding(model::specs::Request::Conditions::a_level))]
pub fn is_level(n: u32) -> bool
    ensures { result ≡ a_level n }
{
    n < range::LEVELS
}

// Whether n says whether a container is marked.
#[tactic(auto, unfolding(model::specs::Request::Conditions::a_flag))]
pub fn is_flag(n: u32) -> bool
    ensures { result ≡ a_flag n }
{
    n <= range::MARK_MOST
}

// Whether n is a who of a triple: a user or a role.
#[tactic(auto, unfolding(model::specs::Request::Conditions::a_who, model::specs::Request::Conditions::between))]
pub fn is_who(n: u32) -> bool
    ensures { result ≡ a_who n }
{
    (1 <= n) & (n <= range::WHO_MOST)
}

// Whether n is the number of an operation.
#[tactic(auto, unfolding(model::specs::Request::Conditions::an_operation, model::specs::Request::Conditions::between))]
pub fn is_operation(n: u32) -> bool
    ensures { result ≡ an_operation n }
{
    (1 <= n) & (n <= range::OPERATION_MOST)
}

// Whether n is the position of an operand.
#[tactic(auto, unfolding(model::specs::Request::Conditions::a_position, model::specs::Request::Conditions::between))]
pub fn is_position(n: u32) -> bool
    ensures { result ≡ a_position n }
{
    (1 <= n) & (n <= range::POSITION_MOST)
}

// Whether n is a sum of what a screen shows.
#[tactic(auto, unfolding(model::specs::Request::Conditions::a_sum, model::specs::Request::Conditions::between))]
pub fn is_sum(n: u32) -> bool
    ensures { result ≡ a_sum n }
{
    (1 <= n) & (n <= range::SUM_MOST)
}

// Whether n is a user.
#[tactic(auto, unfolding(model::specs::Request::Conditions::a_user, model::specs::Request::Conditions::between))]
pub fn is_user(n: u32) -> bool
    ensures { result ≡ a_user n }
{
    (1 <= n) & (n <= size::USERS)
}

// Whether n is a set of roles.
#[tactic(auto, unfolding(model::specs::Request::Conditions::some_roles))]
pub fn are_roles(n: u32) -> bool
    ensures { result ≡ some_roles n }
{
    n < range::ROLE_SETS
}
