//! A few bytes that lie in the value itself.

ghost use Rattle.std.specs.Prelude.{◌≡◌, ◌<◌, length, IfSome};

use std::marker::Model;

/// As many as fit where a vector would lie, with their count and a tag before them.
const ROOM: usize = 30;

/// Up to [`ROOM`] bytes: the first `len` of `bytes`.
#[derive(Debug, Drop)]
pub struct Few {
    len: u8,
    bytes: [u8; ROOM],
}

impl Model for Few {
    ghost use Rattle.std.specs.Prelude.{List, ℕ, ◌≤◌, take};

    ghost Value = { List ℕ };

    ghost view = { λ f. take f.len f.bytes };

    ghost invariant = { λ f. f.len ≤ 30 };
}

impl Few {
    /// The same bytes, if there is room for them.
    pub fn of(bytes: &[u8]) -> Option<Few>
        ensures { IfSome result (λ few. few ≡ bytes.now) }
    {
        if bytes.len() > ROOM {
            return None;
        }
        let mut inside = [0; ROOM];
        let (front, _back) = inside.split_at_mut(bytes.len());
        front.copy_from_slice(bytes);
        Some(Few {
            len: bytes.len() as u8,
            bytes: inside,
        })
    }

    pub fn as_slice(&self) -> &[u8]
        ensures { result.now ≡ self.now }
    {
        &self.bytes[..self.len as usize]
    }
}
