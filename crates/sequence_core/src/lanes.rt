// The lanes that no open request has.
ghost use Rattle.std.specs.Prelude.{◌≡◌, ◌+◌, ◌≤◌, ◌<◌, [], ◌∷◌, ◌++◌, length, nat_lt, IfOk};
ghost use Rattle.std.specs.List.{insert};
ghost use Rattle.sequence_core.specs.Lanes.{Falls, lanes_below, least, with_lane};

use span_key::Memory;
use std::alloc::Global;
use std::marker::Model;

/// The free lanes in falling order, so that the least is the last, with room for all lanes.
#[derive(Drop)]
pub(crate) struct FreeLanes {
    free: Vec<u32>,
    lanes: u32,
}

impl Model for FreeLanes {
    ghost use Rattle.std.specs.Prelude.{◌≤◌, vec_capacity};
    ghost use Rattle.sequence_core.specs.Lanes.{LanesSays};

    ghost Value = { LanesSays };

    ghost view = { λ f. record { free = f.free.items; lanes = f.lanes } };

    ghost invariant = { λ f. f.lanes ≤ vec_capacity f.free };
}

impl FreeLanes {
    /// All lanes below `lanes`.
    pub(crate) fn new(alloc: Global, lanes: u32) -> Result<FreeLanes, Memory>
        ensures { IfOk result (λ f. f ≡ record { free = lanes_below lanes; lanes = lanes }) }
    {
        let mut free = Vec::with_capacity(alloc, lanes as usize)?;
        for taken in 0..lanes {
            free.push(lanes - 1 - taken)?;
        }
        Ok(FreeLanes { free, lanes })
    }

    /// How many lanes are taken.
    pub(crate) fn taken(&self) -> usize
        requires { length self.now.free ≤ self.now.lanes }
        ensures { result + length self.now.free ≡ self.now.lanes }
    {
        self.lanes as usize - self.free.len()
    }

    /// The least free lane.
    pub(crate) fn least(&self) -> u32
        requires { 0 < length self.now.free }
        ensures { result ≡ least self.now.free }
    {
        self.free[self.free.len() - 1]
    }

    /// Takes the least free lane.
    pub(crate) fn take(&mut self)
        requires { 0 < length self.old.free }
        ensures lanes { self.new.lanes ≡ self.old.lanes }
        ensures free { self.old.free ≡ self.new.free ++ least self.old.free ∷ [] }
    {
        let _ = self.free.pop();
    }

    /// Gives back a lane that isn't free.
    pub(crate) fn give(&mut self, lane: u32)
        requires room { length self.old.free < self.old.lanes }
        requires falls { Falls self.old.free }
        ensures { self.new ≡ record self.old { free = with_lane lane self.old.free } }
    {
        let place = place_of(self.free.as_slice(), lane);
        let Ok(()) = self.free.insert(place, lane) else {
            unreachable!()
        };
    }
}

// How many free lanes are above this one.
fn place_of(free: &[u32], lane: u32) -> usize
    requires { Falls free.now }
    ensures within { result ≤ length free.now }
    ensures place { with_lane lane free.now ≡ insert free.now result lane }
{
    free.partition_point(
        |other: &u32| -> bool
            ensures { result ≡ nat_lt lane other.now }
        { lane < *other },
    )
}
