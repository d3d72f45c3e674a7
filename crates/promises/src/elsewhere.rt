//! Circuits that are served elsewhere: in another configuration, by another process.
ghost use Rattle.std.specs.Prelude.{◌≡◌, ℕ, List, Some};
ghost use Rattle.types.specs.declared.addr.Source.{Source};
ghost use Rattle.config.specs.Plans.{PlansValue};
ghost use Rattle.lease_disk.specs.Device.{Device};
ghost use Rattle.relay.specs.Relays.{CircuitFrame};
ghost use Rattle.events.specs.Seen.{Seen};
ghost use Rattle.events.specs.declared.event.Event.{Event};
ghost use Rattle.world.specs.Alone.{Alone, Setup, frames};
ghost use Rattle.world.specs.Headline.{AreFrames, CircuitState, frames_to};
ghost use Rattle.world.specs.Start.{IsReadable, Starts, opening_in, seen_in, setup_in};
ghost use Rattle.promises.specs.Elsewhere.{served_elsewhere};

/// The frames of a circuit's machine don't depend on the address of its relay or on those of the server.
pub fn sends_the_same_from_elsewhere()
    ensures { (relay listen4 listen6 : Source) (setup : Setup) (seen : List Seen) (a : Alone)
        → frames (served_elsewhere relay listen4 listen6 setup) seen a ≡ frames setup seen a }
{}

/// Isolation for a circuit that two configurations serve from different addresses: a circuit that is c in
/// the one and d in the other, with parts that differ in these addresses alone, whose opening finds the
/// same in both, and with equal lists of what it sees, is sent the same frames in both. So a configuration
/// may be split into several, each with a server and relays of its own.
pub fn isolation_of_split_configurations()
    ensures { (c d quota : ℕ) (one two : PlansValue) (device other_device : Device) (setup : Setup)
        (relay listen4 listen6 : Source) (events others : List Event) (start other : List CircuitState)
        (sent received : List CircuitFrame) → Starts one quota device start → Starts two quota other_device other
        → setup_in one quota c ≡ Some setup → setup_in two quota d ≡ Some (served_elsewhere relay listen4 listen6 setup)
        → IsReadable device setup → IsReadable other_device setup
        → opening_in device setup ≡ opening_in other_device setup → AreFrames events start sent
        → AreFrames others other received → seen_in one c events ≡ seen_in two d others
        → frames_to c sent ≡ frames_to d received }
{}
