//! Rooms of places.

ghost use Rattle.std.specs.Prelude.{◌≡◌, IfOk};
ghost use Rattle.productions.specs.Machine.{
  owner_room as room_of_owner,
  place_of as place_under,
  room_of,
};
ghost use Rattle.parser_states.specs.View.{held_of, owner_of, place_of, slot_of};

use crate::state::{HeldSlot, Owner, Place, Slot};
use std::alloc::{AllocError, Global};

impl Place {
    /// The room of the expression.
    #[inline(always)]
    pub fn room(&self) -> u32
        ensures { result ≡ room_of (place_of self.now) }
    {
        match self {
            Place::Head { room, .. } => *room,
            Place::Element(spine) => spine.next,
        }
    }
}

impl Slot {
    /// The room of the form.
    #[inline(always)]
    pub fn room(&self) -> u32
        ensures { result ≡ room_of (place_under (slot_of self.now)) }
    {
        match self {
            Slot::Whole(place) => place.room(),
            Slot::First { place, .. } => place.room(),
            Slot::Second { place, .. } => place.room(),
            Slot::Third { place, .. } => place.room(),
        }
    }

    /// The slot in few bytes.
    #[inline(always)]
    pub fn hold(self, alloc: Global) -> Result<HeldSlot, AllocError>
        ensures { IfOk result (λ held. held_of held ≡ slot_of self) }
    {
        match self {
            Slot::Whole(Place::Head { room, start }) => Ok(HeldSlot::Head { room, start }),
            other => Ok(HeldSlot::Other(Box::new(alloc, other)?)),
        }
    }
}

impl HeldSlot {
    /// The slot that is held.
    #[inline(always)]
    pub fn slot(self) -> Slot
        ensures { slot_of result ≡ held_of self }
    {
        match self {
            HeldSlot::Head { room, start } => Slot::Whole(Place::Head { room, start }),
            HeldSlot::Other(slot) => Box::into_inner(slot),
        }
    }
}

impl Owner {
    /// The room of the form.
    #[inline(always)]
    pub fn room(&self) -> u32
        ensures { result ≡ room_of_owner (owner_of self.now) }
    {
        match self {
            Owner::Composing { place, .. } => place.room(),
            Owner::Gluing { place, .. } => place.room(),
        }
    }
}
