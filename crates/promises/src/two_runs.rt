//! The headline for two runs.
ghost use Rattle.std.specs.Prelude.{◌≡◌, ℕ, List, Some};
ghost use Rattle.config.specs.Plans.{PlansValue};
ghost use Rattle.lease_disk.specs.Device.{Device};
ghost use Rattle.relay.specs.Relays.{CircuitFrame};
ghost use Rattle.world.specs.Alone.{Alone, Setup, frames};
ghost use Rattle.world.specs.Headline.{AreFrames, CircuitState, Represents, frames_to, seen_from};
ghost use Rattle.world.specs.Start.{IsReadable, Starts, opened, opening_in, seen_in, setup_in};
ghost use Rattle.events.specs.declared.event.Event.{Event};

/// Isolation, for any two runs of any two worlds: a circuit that is c in the one and d in the other,
/// with equal parts of the configuration, equal machines at the start and equal lists of what it sees,
/// is sent the same frames in both, byte for byte, whatever all other circuits send, lose, store or
/// fill, and however often they come and go.
pub fn isolation()
    ensures { (c d : ℕ) (setup : Setup) (a : Alone) (events others : List Event) (start other : List CircuitState)
        (sent received : List CircuitFrame) → AreFrames events start sent → AreFrames others other received
        → Represents c start setup a → Represents d other setup a → seen_from c start events ≡ seen_from d other others
        → frames_to c sent ≡ frames_to d received }
{}

/// Isolation from the configurations to the frames, for two worlds that were opened with the same quota:
/// a circuit that is c in the one set of plans and d in the other, set up alike in both, whose opening
/// finds the same in both, and with equal lists of what it sees, is sent the same frames in both, which
/// are those of a machine that serves this circuit alone.
pub fn isolation_of_configurations()
    ensures same { (c d quota : ℕ) (one two : PlansValue) (device other_device : Device) (setup : Setup)
        (events others : List Event) (start other : List CircuitState) (sent received : List CircuitFrame)
        → Starts one quota device start → Starts two quota other_device other → setup_in one quota c ≡ Some setup
        → setup_in two quota d ≡ Some setup → IsReadable device setup → IsReadable other_device setup
        → opening_in device setup ≡ opening_in other_device setup → AreFrames events start sent
        → AreFrames others other received → seen_in one c events ≡ seen_in two d others
        → frames_to c sent ≡ frames_to d received }
    ensures alone { (c quota : ℕ) (plans : PlansValue) (device : Device) (setup : Setup) (events : List Event)
        (start : List CircuitState) (sent : List CircuitFrame) → Starts plans quota device start
        → setup_in plans quota c ≡ Some setup → IsReadable device setup → AreFrames events start sent
        → frames_to c sent ≡ frames setup (seen_in plans c events) (opened setup (opening_in device setup)) }
{}
