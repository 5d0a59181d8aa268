//! Which worker has which domains: worker w of W those whose number is w modulo W, in ascending
//! order.
ghost use Rattle.std.specs.Prelude.{◌≡◌, ◌<◌, ◌≤◌, ◌^◌, [], length};
ghost use Rattle.std.specs.Vec.{vec_capacity};
ghost use Rattle.dealing.specs.Workers.{AreFree, HaveRoom};
ghost use Rattle.weave_run.specs.Crews.{AreHired, AreReturned, HaveDomains};

use crate::crew::Crew;
use crate::post::Post;
use component::Component;
use crossing::DomainSeat;
use dealing::{give, take};
use weave_core::Domain;

/// Gives each worker its domains, with their seats.
pub(crate) fn hire<C: Component>(
    domains: &mut Vec<Domain<C>>,
    seats: &mut Vec<DomainSeat>,
    crews: &mut [Crew<C>],
)
    requires some { 0 < length crews.old }
    requires few { length domains.old.items < 2 ^ 16 }
    requires seats { length seats.old.items ≡ length domains.old.items }
    requires free { AreFree (length domains.old.items) crews.old }
    ensures empty { domains.new.items ≡ [] }
    ensures no_seats { seats.new.items ≡ [] }
    ensures capacity { vec_capacity domains.new ≡ vec_capacity domains.old }
    ensures seats_capacity { vec_capacity seats.new ≡ vec_capacity seats.old }
    ensures count { length crews.new ≡ length crews.old }
    ensures room { HaveRoom (length domains.old.items) crews.new }
    ensures hired { AreHired domains.old.items seats.old.items crews.new }
{
    while let Some(domain) = domains.pop() {
        let Some(seat) = seats.pop() else {
            unreachable!()
        };
        let number = domains.len();
        let post = Post {
            number: number as u16,
            domain,
            seat,
        };
        give(crews, number, post);
    }
}

/// Takes the domains that ran back, in order of their numbers, and their seats.
pub(crate) fn let_go<C: Component>(
    crews: &mut [Crew<C>],
    count: u16,
    domains: &mut Vec<Domain<C>>,
    seats: &mut Vec<DomainSeat>,
)
    requires dealt { HaveDomains count crews.old }
    requires room { HaveRoom count crews.old }
    requires empty { domains.old.items ≡ [] }
    requires no_seats { seats.old.items ≡ [] }
    requires capacity { count ≤ vec_capacity domains.old }
    requires seats_capacity { count ≤ vec_capacity seats.old }
    ensures back { AreReturned count crews.old domains.new.items seats.new.items }
    ensures count { length crews.new ≡ length crews.old }
    ensures free { AreFree count crews.new }
{
    for number in 0..usize::from(count) {
        let Post { domain, seat, .. } = take(crews, number);
        domains.push_reserved(domain);
        seats.push_reserved(seat);
    }
}
