//! What texts are run on.

use tf_registry::Pushes;
use tf_trials::AMPLE;

/// What a text is run on.
#[derive(Clone, Copy)]
pub struct Fixture {
    /// How many tables may be pushed.
    pub limit: u32,
    /// How many readers the store has.
    pub readers: u32,
    /// Bytes of its heap.
    pub room: usize,
    /// The number that the text calls `M`.
    pub parameter: u64,
    /// Whether the heap has no byte left when the store is opened.
    pub lacks_memory: bool,
}

impl Fixture {
    /// A store with ample memory and a reader.
    pub const USUAL: Fixture = Fixture {
        limit: Pushes::MOST,
        readers: 1,
        room: AMPLE,
        parameter: 0,
        lacks_memory: false,
    };

    /// The same with so many readers, which the text calls `M`.
    pub fn with_readers(readers: u32) -> Fixture {
        Fixture {
            readers,
            parameter: u64::from(readers),
            ..Fixture::USUAL
        }
    }

    /// The same under a limit of tables.
    pub fn with_limit(limit: u32) -> Fixture {
        Fixture {
            limit,
            ..Fixture::USUAL
        }
    }

    /// The same on a heap of so many bytes.
    pub fn with_room(room: usize) -> Fixture {
        Fixture {
            room,
            ..Fixture::USUAL
        }
    }

    /// The same with a number that the text calls `M`.
    pub fn with_parameter(parameter: u64) -> Fixture {
        Fixture {
            parameter,
            ..Fixture::USUAL
        }
    }
}

/// A text with what it is run on.
#[derive(Clone, Copy)]
pub struct Course<'t> {
    pub fixture: Fixture,
    pub text: &'t str,
}
