//! Whose turn is next, by a schedule.

ghost use Rattle.std.specs.Prelude.{◌≡◌, ◌≤◌, ℕ, [], length};
ghost use Rattle.std.specs.Bool.{Decides};
ghost use Rattle.std.specs.List.Sorted.{IsStrictlyIncreasing};
ghost use Rattle.packet_walk.specs.Flight.{Flight as FlightValue};
ghost use Rattle.packet_walk.specs.ScheduleTerms.{EntriesGive, EntryGives, IsNext, IsOf, progress};

use crate::flight::Flight;
use std::marker::Model;

/// Whose turn is next among a flight's packets, which a schedule names by the numbers of their
/// frames. An entry gives the named packet one stage; one that names no packet in flight takes
/// none. After the last entry the packets still in flight are run to their ends in the order of
/// their numbers.
#[derive(Debug, Drop)]
pub struct Turns<'a> {
    schedule: &'a [u32],
    numbers: &'a [u32],
    passed: u32,
}

impl<'a> Model for Turns<'a> {
    ghost use Rattle.std.specs.List.Sorted.{IsStrictlyIncreasing};
    ghost use Rattle.packet_walk.specs.ScheduleTerms.{Progress, progress};

    ghost Value = { Progress };

    ghost view = { λ t. progress t.schedule.now t.numbers.now t.passed };

    ghost invariant = { λ t. IsStrictlyIncreasing t.numbers.now };
}

/// Whether numbers rise, each above the one before it.
pub fn are_rising(numbers: &[u32]) -> bool
    ensures { Decides result (IsStrictlyIncreasing numbers.now) }
{
    numbers.is_sorted_by(|one, next| one < next)
}

impl<'a> Turns<'a> {
    /// A schedule's entries, and the frames' numbers of a flight's packets in the order of
    /// entering, in which they rise, as `are_rising` tells. It takes no memory.
    pub fn new(schedule: &'a [u32], numbers: &'a [u32]) -> Turns<'a>
        requires { IsStrictlyIncreasing numbers.now }
        ensures is { result ≡ progress schedule.now numbers.now 0 }
        ensures of { (f : FlightValue) → length numbers.now ≡ length f.packets → IsOf f result }
    {
        Turns {
            schedule,
            numbers,
            passed: 0,
        }
    }

    /// The number in the flight of the packet in flight that an entry names, if it names one.
    fn named(&self, flight: &Flight<'_>, entry: u32) -> Option<u32>
        requires { length self.now.numbers ≡ length flight.now.packets }
        ensures { EntryGives self.now.numbers flight.now entry result }
    {
        let _count = flight.count();
        let Ok(place) = self.numbers.binary_search(&entry) else {
            return None;
        };
        let number = place as u32 + 1;
        flight.keeps_rules(number);
        match flight.ended(number) {
            Some(_) => None,
            None => Some(number),
        }
    }

    /// The entries up to one that names a packet in flight, and its number in the flight.
    fn next_named(&mut self, flight: &Flight<'_>) -> Option<u32>
        requires { IsOf flight.now self.old }
        ensures { EntriesGive self.old flight.now result self.new }
    {
        'entries: while let [entry, left @ ..] = self.schedule {
            self.schedule = left;
            if let Some(number) = self.named(flight, *entry) {
                return Some(number);
            }
        }
        None
    }

    /// After the last entry, the first packet that has not ended. Those before it are passed, and
    /// not seen again.
    fn next_going(&mut self, flight: &Flight<'_>) -> Option<u32>
        requires of { IsOf flight.now self.old }
        requires behind { self.old.schedule ≡ [] }
        ensures { IsNext self.old flight.now result self.new }
    {
        'packets: while self.passed < flight.count() {
            let number = self.passed + 1;
            flight.keeps_rules(number);
            match flight.ended(number) {
                Some(_) => self.passed = number,
                None => return Some(number),
            }
        }
        None
    }

    /// The number of the packet whose turn is next, in the order of entering as `Flight::turn`
    /// takes it: it has not ended. None exactly where all packets have ended. The turn is to be
    /// taken before the next call. A call takes a step for each entry that it passes over, with a
    /// search among the numbers, and for each packet that it passes.
    pub fn next(&mut self, flight: &Flight<'_>) -> Option<u32>
        requires { IsOf flight.now self.old }
        ensures { IsNext self.old flight.now result self.new }
    {
        match self.next_named(flight) {
            Some(number) => Some(number),
            None => self.next_going(flight),
        }
    }
}
