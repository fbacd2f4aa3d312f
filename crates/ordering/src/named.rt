ghost use Rattle.std.specs.Prelude.{◌≡◌, ◌&&◌};
ghost use Rattle.ordering.specs.Table.{sc, ibm390, tso, pso, clr, every, both, apart, tso_swaps, six_only};
ghost use Rattle.std.proofs.Common.{rules};

// the language has a trait `Model` too, `std::marker::Model`: an impl has to say which it is of
use crate::model::{Model as OrderingModel, Removal};
use trace::{Access, Kind};

// Whether the location is one of 0 to 7.
fn in_range(location: u8) -> bool
    ensures { result ≡ every location }
{
    location <= 7
}

// Whether the accesses are to two of them.
fn are_apart(first: Access, second: Access) -> bool
    ensures { result ≡ (both first second && apart first second) }
{
    in_range(first.location) && in_range(second.location) && first.location != second.location
}

fn store_then_load(first: Access, second: Access) -> bool
    ensures { result ≡ tso_swaps first second }
{
    matches!((first.kind, second.kind), (Kind::Store, Kind::Load)) && are_apart(first, second)
}

fn load_after_store_only(removal: Removal, location: u8) -> bool
    ensures { result ≡ six_only removal location }
{
    match removal {
        Removal::StoreAfterLoad => false,
        Removal::LoadAfterStore => in_range(location),
    }
}

// Each model gives its own row of the table. What two rows share is a function above; what all share
// is in the trait.

/// Sequential consistency.
#[derive(Clone, Copy)]
pub struct Sc;

impl OrderingModel for Sc {
    const NUMBER: u8 = 1;

    ghost NUMBER = { 1 };

    ghost meaning = { λ _. sc };

    ghost lawful = { Prim.search rules };

    fn may_swap(&self, _first: Access, _second: Access) -> bool {
        false
    }

    fn forwards_at(&self, _location: u8) -> bool {
        false
    }

    fn permits(&self, _removal: Removal, location: u8) -> bool {
        in_range(location)
    }
}

/// The 390 model.
#[derive(Clone, Copy)]
pub struct Ibm390;

impl OrderingModel for Ibm390 {
    const NUMBER: u8 = 2;

    ghost NUMBER = { 2 };

    ghost meaning = { λ _. ibm390 };

    ghost lawful = { Prim.search rules };

    fn may_swap(&self, first: Access, second: Access) -> bool {
        store_then_load(first, second)
    }

    fn forwards_at(&self, _location: u8) -> bool {
        false
    }

    fn permits(&self, _removal: Removal, _location: u8) -> bool {
        false
    }
}

/// Total store order.
#[derive(Clone, Copy)]
pub struct Tso;

impl OrderingModel for Tso {
    const NUMBER: u8 = 3;

    ghost NUMBER = { 3 };

    ghost meaning = { λ _. tso };

    ghost lawful = { Prim.search rules };

    fn may_swap(&self, first: Access, second: Access) -> bool {
        store_then_load(first, second)
    }

    fn forwards_at(&self, location: u8) -> bool {
        in_range(location)
    }

    fn permits(&self, removal: Removal, location: u8) -> bool {
        load_after_store_only(removal, location)
    }
}

/// Partial store order.
#[derive(Clone, Copy)]
pub struct Pso;

impl OrderingModel for Pso {
    const NUMBER: u8 = 4;

    ghost NUMBER = { 4 };

    ghost meaning = { λ _. pso };

    ghost lawful = { Prim.search rules };

    fn may_swap(&self, first: Access, second: Access) -> bool {
        first.kind == Kind::Store && are_apart(first, second)
    }

    fn forwards_at(&self, location: u8) -> bool {
        in_range(location)
    }

    fn permits(&self, _removal: Removal, location: u8) -> bool {
        in_range(location)
    }
}

/// The CLR's model.
#[derive(Clone, Copy)]
pub struct Clr;

impl OrderingModel for Clr {
    const NUMBER: u8 = 5;

    ghost NUMBER = { 5 };

    ghost meaning = { λ _. clr };

    ghost lawful = { Prim.search rules };

    fn may_swap(&self, first: Access, second: Access) -> bool {
        match (first.kind, second.kind) {
            (Kind::Load, Kind::Load) => in_range(first.location) && in_range(second.location),
            _ => store_then_load(first, second),
        }
    }

    fn forwards_at(&self, location: u8) -> bool {
        in_range(location)
    }

    fn permits(&self, removal: Removal, location: u8) -> bool {
        load_after_store_only(removal, location)
    }
}
