//! New connections.

ghost use Rattle.std.specs.Prelude.{ℕ, ◌≡◌, ◌<◌, None};
ghost use Rattle.gs_enet_hub.specs.Routing.{RoutesRequest, IsNewcomer, IsLeastFree};

use crate::seat::{Seat, first_free, seat_of};
use crate::{Hub, RouteError};
use gs_bytes::Addr;
use gs_enet::Peer;
use gs_enet_wire::Connect;

impl Hub {
    /// The key of the connection with that address and the request's connect id, which is made where there
    /// is none.
    pub(crate) fn join(
        &mut self,
        from: Addr,
        connect: &Connect,
        now: u32,
    ) -> Result<usize, RouteError>
        ensures { RoutesRequest connect.now from now self.old result self.new }
    {
        if let Some(key) = seat_of(&self.seats, from, connect.connect_id) {
            return Ok(key);
        }
        let Some(key) = first_free(&self.seats) else {
            return Err(RouteError::HubFull);
        };
        self.admit(key, from, connect, now)
    }

    /// Makes a peer under that key.
    fn admit(
        &mut self,
        key: usize,
        from: Addr,
        connect: &Connect,
        now: u32,
    ) -> Result<usize, RouteError>
        requires free { IsLeastFree self.old key }
        requires unknown { IsNewcomer self.old from connect.now.connect_id }
        ensures { RoutesRequest connect.now from now self.old result self.new }
    {
        let peer = Peer::accept(*self.seats.allocator(), key as u16, connect, now)?;
        let place = self.peers.insert(peer)?;
        self.seats[key] = Some(Seat {
            place,
            from,
            connect_id: connect.connect_id,
        });
        Ok(key)
    }
}
