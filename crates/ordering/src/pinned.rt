ghost use Rattle.ordering.specs.Pinning.{pinning};
ghost use Rattle.ordering.specs.PinnedLaws.{pinned_lawful};

// the language has a trait `Model` too, `std::marker::Model`: an impl has to say which it is of
use crate::model::{Model as OrderingModel, Removal};
use crate::pins::Pins;
use trace::Access;

/// A model, but that nothing swaps or is forwarded where a pinned location is involved. It permits
/// what the model under it permits, and carries its number. It may be pinned once more.
#[derive(Clone, Copy, Drop)]
pub struct Pinned<M> {
    pub under: M,
    pub pins: Pins,
}

impl<M: OrderingModel> OrderingModel for Pinned<M> {
    const NUMBER: u8 = M::NUMBER;

    ghost NUMBER = { M.NUMBER };

    ghost meaning = { λ m. pinning m.pins.mask (M.meaning m.under) };

    ghost lawful = { λ m. pinned_lawful m.pins.mask (M.meaning m.under) (M.lawful m.under) };

    fn may_swap(&self, first: Access, second: Access) -> bool {
        self.under.may_swap(first, second)
            && !self.pins.has(first.location)
            && !self.pins.has(second.location)
    }

    fn forwards_at(&self, location: u8) -> bool {
        self.under.forwards_at(location) && !self.pins.has(location)
    }

    fn permits(&self, removal: Removal, location: u8) -> bool {
        self.under.permits(removal, location)
    }
}
