// The names of mouse kinds and game states, as programs print them.
#![tactic(auto)]

ghost use Rattle.std.specs.Prelude.{◌≡◌};
ghost use Rattle.names.specs.Names.{kind_name, state_name, name_of_one, name_of_two};

use game::{GameState, MouseKind};

// A name: its first `len` bytes; the rest is 0.
#[derive(Clone, Copy)]
pub struct Name {
    pub bytes: [u8; 6],
    pub len: usize,
}

pub fn kind_name(kind: MouseKind) -> Name
    ensures { result ≡ kind_name kind }
{
    match kind {
        MouseKind::Mv => two(b'm', b'v'),
        MouseKind::Lc => two(b'l', b'c'),
        MouseKind::Lr => two(b'l', b'r'),
        MouseKind::Rc => two(b'r', b'c'),
        MouseKind::Rr => two(b'r', b'r'),
        MouseKind::Mc => two(b'm', b'c'),
        MouseKind::Mr => two(b'm', b'r'),
        MouseKind::Pf => two(b'p', b'f'),
        MouseKind::Cc => two(b'c', b'c'),
        MouseKind::L => one(b'l'),
        MouseKind::R => one(b'r'),
        MouseKind::M => one(b'm'),
        MouseKind::Ub => two(b'u', b'b'),
    }
}

pub fn state_name(state: GameState) -> Name
    ensures { result ≡ state_name state }
{
    match state {
        GameState::Replay => Name {
            bytes: [b'r', b'e', b'p', b'l', b'a', b'y'],
            len: 6,
        },
        GameState::Win => Name {
            bytes: [b'w', b'i', b'n', 0, 0, 0],
            len: 3,
        },
        GameState::Fail => Name {
            bytes: [b'f', b'a', b'i', b'l', 0, 0],
            len: 4,
        },
        GameState::Error => Name {
            bytes: [b'e', b'r', b'r', b'o', b'r', 0],
            len: 5,
        },
    }
}

fn one(a: u8) -> Name
    ensures { result ≡ name_of_one a }
{
    Name {
        bytes: [a, 0, 0, 0, 0, 0],
        len: 1,
    }
}

fn two(a: u8, b: u8) -> Name
    ensures { result ≡ name_of_two a b }
{
    Name {
        bytes: [a, b, 0, 0, 0, 0],
        len: 2,
    }
}
