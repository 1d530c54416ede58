// Rung 10: what an operand is.
ghost use Rattle.std.specs.Prelude.{◌≡◌};
ghost use Rattle.model.specs.Request.Conditions.{is_any, is_container, is_device, is_draft, is_entity};
ghost use Rattle.model.specs.Tables.Layout.{tables_of};
ghost use Rattle.tables.specs.Singles.{EntityIn};

use tables::Entity;

// Whether entity e is an object or a container.
#[tactic(auto, unfolding(model::specs::Request::Conditions::is_entity))]
pub fn is_entity(t: &[u32], e: Entity) -> bool
    requires { EntityIn t.now e.0 }
    ensures { result ≡ is_entity (tables_of t.now) e.0 }
{
    let k = tables::kind(t, e);
    (names::kind::OBJECT <= k) & (k <= names::kind::CONTAINER)
}

// Whether entity e is a container.
#[tactic(auto, unfolding(model::specs::Request::Conditions::is_container))]
pub fn is_container(t: &[u32], e: Entity) -> bool
    requires { EntityIn t.now e.0 }
    ensures { result ≡ is_container (tables_of t.now) e.0 }
{
    tables::kind(t, e) == names::kind::CONTAINER
}

// Whether entity e is a device.
#[tactic(auto, unfolding(model::specs::Request::Conditions::is_device))]
pub fn is_device(t: &[u32], e: Entity) -> bool
    requires { EntityIn t.now e.0 }
    ensures { result ≡ is_device (tables_of t.now) e.0 }
{
    tables::kind(t, e) == names::kind::DEVICE
}

// Whether entity e is a draft.
#[tactic(auto, unfolding(model::specs::Request::Conditions::is_draft))]
pub fn is_draft(t: &[u32], e: Entity) -> bool
    requires { EntityIn t.now e.0 }
    ensures { result ≡ is_draft (tables_of t.now) e.0 }
{
    (tables::kind(t, e) == names::kind::CONTAINER) & (tables::type_of(t, e) == names::types::DRAFT)
}

// Whether entity e is anything that is there.
#[tactic(auto, unfolding(model::specs::Request::Conditions::is_any))]
pub fn is_any(t: &[u32], e: Entity) -> bool
    requires { EntityIn t.now e.0 }
    ensures { result ≡ is_any (tables_of t.now) e.0 }
{
    names::kind::OBJECT <= tables::kind(t, e)
}
