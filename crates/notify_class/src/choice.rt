//! Which destinations are told at a moment.

ghost use Rattle.std.specs.Prelude.{◌≡◌, ◌↔◌, ◌+◌, ◌<◌, ◌≤◌, IsTrue, IfSome, length, drop, position};
ghost use Rattle.std.specs.Option.{option_map};
ghost use Rattle.bac_values.specs.Moments.{IsMoment};
ghost use Rattle.notify_class.specs.Windows.{IsInWindow, is_in_window, is_open_at};
ghost use Rattle.notify_class.specs.Chosen.{IsNextChosen, GoesOn};

use crate::{Class, Destination};
use bac_values::Transition;
use civil_stamp::{LocalMoment, Zone, weekday_and_time};

/// Whether the window is open on a weekday, 1 for Monday, at so many hundredths of a second of the day.
fn is_open_at(destination: &Destination, transition: Transition, weekday: u8, time: u32) -> bool
    requires weekday { (1 ≤ weekday) × (weekday ≤ 7) }
    ensures test { result ≡ is_open_at destination.now transition weekday time }
{
    destination.transitions[transition.place()]
        && destination.days & (1 << (weekday - 1)) != 0
        && destination.from <= time
        && time <= destination.to
}

/// Whether the destination is notified of such a transition at a moment, by the local date and time of it.
pub fn uses_at(destination: &Destination, transition: Transition, at: &LocalMoment) -> bool
    ensures window { IsTrue result ↔ IsInWindow destination.now transition at.now.moment at.now.zone }
    ensures test { result ≡ is_in_window destination.now transition at.now.moment at.now.zone }
{
    let (weekday, time) = at.weekday_and_time();
    is_open_at(destination, transition, weekday, time)
}

/// Whether the destination is notified of such a transition at the moment.
pub fn uses(destination: &Destination, transition: Transition, moment: u64, zone: &Zone) -> bool
    requires moment { IsMoment moment }
    ensures window { IsTrue result ↔ IsInWindow destination.now transition moment zone.now }
    ensures test { result ≡ is_in_window destination.now transition moment zone.now }
{
    uses_at(destination, transition, &LocalMoment::new(moment, zone))
}

/// The first place of a destination whose window is open on the weekday at the time of day.
fn first_open(
    destinations: &[Destination],
    transition: Transition,
    weekday: u8,
    time: u32,
) -> Option<usize>
    requires weekday { (1 ≤ weekday) × (weekday ≤ 7) }
    ensures first { result ≡ position (λ destination. is_open_at destination transition weekday time) destinations.now }
{
    destinations.iter().position(|destination| is_open_at(destination, transition, weekday, time))
}

/// The next place, at or after `from`, of a destination whose window is open on the weekday at the time of day.
fn next_open(
    destinations: &[Destination],
    transition: Transition,
    weekday: u8,
    time: u32,
    from: usize,
) -> Option<usize>
    requires weekday { (1 ≤ weekday) × (weekday ≤ 7) }
    ensures next { result ≡ option_map (λ k. from + k)
        (position (λ destination. is_open_at destination transition weekday time) (drop from destinations.now)) }
{
    if from > destinations.len() {
        return None;
    }
    let place = first_open(&destinations[from..], transition, weekday, time)?;
    Some(from + place)
}

/// The next place, at or after `from`, of a destination of the class that is notified of such a transition at the
/// moment.
pub fn chosen(
    class: &Class,
    transition: Transition,
    moment: u64,
    zone: &Zone,
    from: usize,
) -> Option<usize>
    requires moment { IsMoment moment }
    ensures next { IsNextChosen class.now.destinations transition moment zone.now from result }
    ensures within { IfSome result (λ place. place < length class.now.destinations) }
    ensures rest { GoesOn class.now.destinations transition moment zone.now from result }
{
    let destinations = class.destinations.as_slice();
    let (weekday, time) = weekday_and_time(moment, zone);
    next_open(destinations, transition, weekday, time, from)
}
