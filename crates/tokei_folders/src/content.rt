//! The content of a file, in memory that can serve for the next one.
ghost use Rattle.std.specs.Prelude.{◌≡◌, take};

use std::marker::Model;

/// The content of a file, which contracts see as its bytes. They stand at the front of memory that
/// may have more.
#[derive(Drop)]
pub struct Content {
    room: Vec<u8>,
    bytes: usize,
}

impl Model for Content {
    ghost use Rattle.std.specs.Prelude.{ℕ, List, take};

    ghost Value = { List ℕ };

    ghost view = { λ c. take c.bytes c.room.items };
}

impl Content {
    /// All of these bytes. It takes no memory.
    pub fn from_vec(room: Vec<u8>) -> Content
        ensures { result ≡ room.items }
    {
        let bytes = room.len();
        Content { room, bytes }
    }

    /// So many bytes at the front of these, or all where there are fewer. It takes no memory.
    pub fn front_of(room: Vec<u8>, bytes: usize) -> Content
        ensures { result ≡ take bytes room.items }
    {
        Content { room, bytes }
    }

    /// The bytes.
    pub fn as_slice(&self) -> &[u8]
        ensures { result.now ≡ self.now }
    {
        let (front, _room) = self.room.split_at(self.bytes.min(self.room.len()));
        front
    }

    /// The memory in which the bytes stand, and all that stands there.
    pub fn into_room(self) -> Vec<u8> {
        self.room
    }
}
