//! How far an access has come.
ghost use Rattle.std.specs.Prelude.{◌≡◌, ◌≤◌, ◌+◌, ◌*◌, ◌^◌, None};
ghost use Rattle.noc_mesh.specs.Passages.{piece_of};
ghost use Rattle.noc_mesh.specs.Standings as standings;

use crate::Stage;
use event_graph::Piece;

/// How far an access has come.
#[derive(Clone, Copy)]
pub(crate) struct Standing {
    /// How many events it has so far.
    pub(crate) events: u16,
    /// The place of the event for which the next waits.
    pub(crate) last: Option<u16>,
    /// How long after its start it can go on, in cycles.
    pub(crate) end: u64,
}

impl Standing {
    /// Before the first event.
    pub(crate) fn begun(head: u64) -> Standing
        ensures { result ≡ standings.begun head }
    {
        Standing {
            events: 0,
            last: None,
            end: head,
        }
    }

    /// Behind a stage more.
    pub(crate) fn behind(self, time: u64) -> Standing
        requires few { self.events ≤ 60 }
        requires soon { self.end ≤ 2 ^ 20 }
        requires time { time ≤ 2 ^ 20 }
        ensures { result ≡ standings.behind self time }
    {
        Standing {
            events: self.events + 1,
            last: Some(self.events),
            end: self.end + time,
        }
    }

    /// Behind so many hops more, each of which takes so long.
    #[tactic(auto, using(crate::specs::RouteFacts::hops_small))]
    pub(crate) fn behind_hops(self, count: u16, time: u64) -> Standing
        requires few { self.events ≤ 60 }
        requires soon { self.end ≤ 2 ^ 20 }
        requires count { count ≤ 14 }
        requires quick { time ≤ 256 }
        ensures { result ≡ standings.behind_hops self count time }
    {
        Standing {
            events: self.events + count,
            last: self.waited_for(count),
            end: self.end + u64::from(count) * time,
        }
    }

    /// The place of the event for which one of some hops waits: the last event before the first of
    /// them, and else the hop before it.
    pub(crate) fn waited_for(self, hop: u16) -> Option<u16>
        requires few { self.events ≤ 60 }
        requires hop { hop ≤ 14 }
        ensures { result ≡ standings.waits_for self.last self.events hop }
    {
        if hop == 0 {
            self.last
        } else {
            Some(self.events + (hop - 1))
        }
    }

    /// The event of the next stage.
    pub(crate) fn event(self, stage: Stage) -> Piece
        ensures { result ≡ piece_of stage self.end self.last None }
    {
        Piece {
            component: stage.component,
            kind: stage.kind,
            offset: self.end,
            time: stage.time,
            first: self.last,
            second: None,
        }
    }

    /// The event of the hop at a place, of some that each ask the like.
    #[tactic(auto, using(crate::specs::RouteFacts::hops_small))]
    pub(crate) fn hop(self, stage: Stage, place: u16) -> Piece
        requires few { self.events ≤ 60 }
        requires soon { self.end ≤ 2 ^ 20 }
        requires place { place ≤ 14 }
        requires quick { stage.time ≤ 256 }
        ensures { result ≡ piece_of stage (self.end + place * stage.time) (standings.waits_for self.last self.events place) None }
    {
        Piece {
            component: stage.component,
            kind: stage.kind,
            offset: self.end + u64::from(place) * stage.time,
            time: stage.time,
            first: self.waited_for(place),
            second: None,
        }
    }

    /// Behind an event beside the last one, for which the next does not wait.
    pub(crate) fn beside(self) -> Standing
        requires { self.events ≤ 60 }
        ensures { result ≡ standings.beside self }
    {
        Standing {
            events: self.events + 1,
            ..self
        }
    }

    /// Where it cannot go on before a cycle.
    pub(crate) fn not_before(self, end: u64) -> Standing
        ensures { result ≡ standings.not_before self end }
    {
        Standing {
            end: self.end.max(end),
            ..self
        }
    }
}
