//! Echo requests that are still to be answered (RFC 1575).
ghost use Rattle.std.specs.Prelude.{◌≡◌, ◌<◌, [], List, IfOk, Some, length, option_map, slice_get};
ghost use Rattle.std.specs.List.{find, position_from, remove};
ghost use Rattle.clnp_machine.specs.ClnpViews.Extent.{seen};
ghost use Rattle.clnp_machine.specs.MadePdus.Match.{echoes};
ghost use Rattle.clnp_machine.specs.Pdus.declared.pdu_header.kind.Kind.{Kind as KindOf};
ghost use Rattle.clnp_machine.specs.Unit.{DataUnit};
ghost use Rattle.clnp_machine.specs.Local.{is_answer, with_made, without_answered};
ghost use Rattle.clnp_systems.specs.Local.{AreRequests, IsRequest};
ghost use Rattle.clnp_systems.specs.Pending.{answers, request_of};

use clnp_machine::base::NoMemory;
use clnp_machine::clnp::Kind;
use clnp_machine::echoing::matches_parts;
use clnp_machine::nsaps::Address;
use clnp_machine::views::View;
use std::alloc::Global;
use std::marker::Model;

/// The most echo requests that are to be answered.
const MOST: usize = 8;

/// An echo request that was made: its number among the system's units, its source and its destination, and its data.
#[derive(Drop)]
pub(crate) struct Request {
    pub unit: u64,
    pub from: Address,
    pub to: Address,
    pub body: View,
}

/// The echo requests of a system that are still to be answered, the oldest first.
#[derive(Drop)]
pub(crate) struct Pending {
    requests: Vec<Request>,
}

impl Model for Pending {
    ghost use Rattle.std.specs.Prelude.{◌≤◌, List, vec_capacity};
    ghost use Rattle.clnp_systems.specs.declared.pending.Request.{Request};

    ghost Value = { List Request };

    ghost view = { λ pending. pending.requests.items };

    // Room for the most requests was reserved when it was made.
    ghost invariant = { λ pending. 8 ≤ vec_capacity pending.requests };
}

impl Request {
    /// The request that a unit of this kind is, if it is one.
    ///
    /// # Errors
    ///
    /// `NoMemory`, where a further owner of the data is refused.
    pub(crate) fn of(
        kind: Kind,
        unit: u64,
        from: Address,
        to: Address,
        body: &View,
    ) -> Result<Option<Request>, NoMemory>
        ensures { IfOk result
            (λ request. request ≡ request_of kind (record { unit = unit; from = from; to = to; body = body.now })) }
    {
        let Kind::Erq = kind else {
            return Ok(None);
        };
        let body = body.share()?;
        Ok(Some(Request {
            unit,
            from,
            to,
            body,
        }))
    }

    /// Whether a reply between two addresses with these data answers the request.
    fn is_answered(&self, from: &Address, to: &Address, body: &[u8]) -> bool
        ensures { result ≡ answers from.now to.now body.now self.now }
    {
        self.to == *from && self.from == *to && self.has_answer(body)
    }

    /// Whether the data of a reply answer the request.
    fn has_answer(&self, body: &[u8]) -> bool
        ensures { result ≡ echoes (seen self.now.body) body.now }
    {
        let (front, behind) = self.body.parts(0, self.body.len());
        matches_parts(front, behind, body)
    }
}

impl Pending {
    /// No requests. It reserves all the room that it will need.
    ///
    /// # Errors
    ///
    /// `NoMemory`.
    pub(crate) fn new(alloc: Global) -> Result<Pending, NoMemory>
        ensures { IfOk result (λ pending. pending ≡ []) }
    {
        let Ok(requests) = Vec::with_capacity(alloc, MOST) else {
            return Err(NoMemory);
        };
        Ok(Pending { requests })
    }

    /// Notes a unit that was made, where it is a request; where there are eight before it, the oldest goes.
    pub(crate) fn note(&mut self, request: Option<Request>)
        ensures { (kind : KindOf) (pending : List DataUnit) (u : DataUnit) (noted : Request)
            → AreRequests self.old pending
            → request ≡ request_of kind noted → IsRequest noted u → AreRequests self.new (with_made kind pending u) }
    {
        let Some(request) = request else {
            return;
        };
        if self.requests.len() >= MOST {
            self.requests.remove(0);
        }
        self.requests.push_reserved(request);
    }

    /// Takes out the oldest request that a reply between two addresses with these data answers, and gives its number.
    pub(crate) fn take(&mut self, from: &Address, to: &Address, body: &[u8]) -> Option<u64>
        ensures number { (pending : List DataUnit) → AreRequests self.old pending
            → result ≡ option_map (λ u. u.number) (find (is_answer from.now to.now body.now) pending) }
        ensures left { (pending : List DataUnit) → AreRequests self.old pending
            → AreRequests self.new (without_answered (is_answer from.now to.now body.now) pending) }
    {
        let place = self.place_of(from, to, body)?;
        Some(self.take_out(place))
    }

    /// Takes out the request at a place, and gives its number.
    fn take_out(&mut self, place: usize) -> u64
        requires { place < length self.old }
        ensures number { (request : Request) → slice_get self.old place ≡ Some request → result ≡ request.unit }
        ensures left { self.new ≡ remove self.old place }
    {
        self.requests.remove(place).unit
    }

    /// Forgets all requests.
    pub(crate) fn clear(&mut self)
        ensures { self.new ≡ [] }
    {
        self.requests.clear();
    }

    /// The place of the oldest request that a reply answers.
    fn place_of(&self, from: &Address, to: &Address, body: &[u8]) -> Option<usize>
        ensures { result ≡ position_from (answers from.now to.now body.now) 0 self.now }
    {
        self.requests
            .iter()
            .position(|request| request.is_answered(from, to, body))
    }
}
