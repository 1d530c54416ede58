// The operations (rule 6), each with its number.
ghost use Rattle.std.specs.Prelude.{◌≡◌};
ghost use Rattle.model.specs.Request.Operations.{number_of};
ghost use Rattle.names.specs.Operations.{Decodes, meant, position_of};

#[derive(Clone, Copy, Debug, PartialEq, Eq)]
pub enum Op {
    Create = 1,
    Delete = 2,
    Move = 3,
    Edit = 4,
    Copy = 5,
    SetLevel = 6,
    SetMark = 7,
    Grant = 8,
    Revoke = 9,
    Show = 10,
    Clear = 11,
    Login = 12,
    Logout = 13,
    CurrentRoles = 14,
    Clearance = 15,
    AuthorisedRoles = 16,
    Maximum = 17,
    DeviceLevel = 18,
    Release = 19,
    Acknowledge = 20,
}

impl From<Op> for u32 {
    ghost from_gives = { λ o n. n ≡ number_of (meant o) };

    fn from(o: Op) -> u32 {
        o as u32
    }
}

// The numbers as patterns.
const CREATE: u32 = Op::Create as u32;

const DELETE: u32 = Op::Delete as u32;

const MOVE: u32 = Op::Move as u32;

const EDIT: u32 = Op::Edit as u32;

const COPY: u32 = Op::Copy as u32;

const SET_LEVEL: u32 = Op::SetLevel as u32;

const SET_MARK: u32 = Op::SetMark as u32;

const GRANT: u32 = Op::Grant as u32;

const REVOKE: u32 = Op::Revoke as u32;

const SHOW: u32 = Op::Show as u32;

const CLEAR: u32 = Op::Clear as u32;

const LOGIN: u32 = Op::Login as u32;

const LOGOUT: u32 = Op::Logout as u32;

const CURRENT_ROLES: u32 = Op::CurrentRoles as u32;

const CLEARANCE: u32 = Op::Clearance as u32;

const AUTHORISED_ROLES: u32 = Op::AuthorisedRoles as u32;

const MAXIMUM: u32 = Op::Maximum as u32;

const DEVICE_LEVEL: u32 = Op::DeviceLevel as u32;

const RELEASE: u32 = Op::Release as u32;

const ACKNOWLEDGE: u32 = Op::Acknowledge as u32;

// A number that is no operation's.
#[derive(Clone, Copy, Debug, PartialEq, Eq)]
pub struct UnknownOperation(pub u32);

impl TryFrom<u32> for Op {
    type Error = UnknownOperation;

    ghost try_from_gives = { Decodes };

    fn try_from(n: u32) -> Result<Op, UnknownOperation> {
        match n {
            CREATE => Ok(Op::Create),
            DELETE => Ok(Op::Delete),
            MOVE => Ok(Op::Move),
            EDIT => Ok(Op::Edit),
            COPY => Ok(Op::Copy),
            SET_LEVEL => Ok(Op::SetLevel),
            SET_MARK => Ok(Op::SetMark),
            GRANT => Ok(Op::Grant),
            REVOKE => Ok(Op::Revoke),
            SHOW => Ok(Op::Show),
            CLEAR => Ok(Op::Clear),
            LOGIN => Ok(Op::Login),
            LOGOUT => Ok(Op::Logout),
            CURRENT_ROLES => Ok(Op::CurrentRoles),
            CLEARANCE => Ok(Op::Clearance),
            AUTHORISED_ROLES => Ok(Op::AuthorisedRoles),
            MAXIMUM => Ok(Op::Maximum),
            DEVICE_LEVEL => Ok(Op::DeviceLevel),
            RELEASE => Ok(Op::Release),
            ACKNOWLEDGE => Ok(Op::Acknowledge),
            _ => Err(UnknownOperation(n)),
        }
    }
}

// The positions of operands.
#[derive(Clone, Copy, Debug, PartialEq, Eq)]
pub enum Position {
    First = 1,
    Second = 2,
}

impl From<Position> for u32 {
    ghost from_gives = { λ k n. n ≡ position_of k };

    fn from(k: Position) -> u32 {
        k as u32
    }
}

// No operation: what a notice keeps of a request whose number is none of them.
pub const NONE: u32 = 0;
