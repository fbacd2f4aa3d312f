ghost use Rattle.std.specs.Prelude.{◌≡◌};
ghost use Rattle.ordering.specs.Pinning.{pinned};

/// A list of pinned locations: bit L is set where location L is pinned.
#[derive(Clone, Copy)]
pub struct Pins {
    // a bit for each location, which is the form of the list
    pub mask: u8,
}

impl Pins {
    /// Whether a location is pinned: none above 7 is.
    pub fn has(&self, location: u8) -> bool
        ensures { result ≡ pinned self.now.mask location }
    {
        // read first: that it has eight bits is known of what is read
        let mask = self.mask;
        location <= 7 && (mask >> location) & 1 == 1
    }
}
