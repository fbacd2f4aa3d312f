ghost use Rattle.std.specs.Prelude.{◌≡◌};
ghost use Rattle.trace.specs.Words.{access_of};

/// What a run does at one place of its word.
#[derive(Clone, Copy, Debug, PartialEq, Eq)]
pub enum Event {
    Load { location: u8, value: u8 },
    Store { location: u8, value: u8 },
    // finds the first value, and leaves the second
    LoadStore { location: u8, found: u8, left: u8 },
    Fence,
    Get { value: u8 },
    Print { value: u8 },
}

/// Which way an access goes.
#[derive(Clone, Copy, Debug, PartialEq, Eq)]
pub enum Kind {
    Load,
    Store,
}

/// A load or a store as an ordering model sees it: without its value.
#[derive(Clone, Copy, Debug, PartialEq, Eq)]
pub struct Access {
    pub kind: Kind,
    pub location: u8,
}

impl Event {
    /// What places of an array hold before an event is written there. It is the longest event, so
    /// that such an array is filled by whole words.
    pub const BLANK: Event = Event::LoadStore {
        location: 0,
        found: 0,
        left: 0,
    };

    /// The access that the event is, if it is a load or a store.
    pub fn access(self) -> Option<Access>
        ensures { result ≡ access_of self }
    {
        match self {
            Event::Load { location, .. } => Some(Access {
                kind: Kind::Load,
                location,
            }),
            Event::Store { location, .. } => Some(Access {
                kind: Kind::Store,
                location,
            }),
            _ => None,
        }
    }
}
