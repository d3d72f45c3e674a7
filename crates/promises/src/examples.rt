//! The definitions on worked examples, computed by the prover. The values stand in `specs/Examples.antt`,
//! `Examples6.antt` and `ExampleDisk.antt` and were taken from the standards and the profile, not from a program.
ghost use Rattle.std.specs.Prelude.{◌≡◌, [], ◌∷◌, Some, None, true, false, ◌++◌, take, drop, replicate};
ghost use Rattle.std.specs.FinMap.{empty};
ghost use Rattle.types.specs.Delivery.{delivery};
ghost use Rattle.types.specs.declared.slot4.Slot4.TheVariants as slot4;
ghost use Rattle.types.specs.declared.slot6.Slot6.TheVariants as slot6;
ghost use Rattle.types.specs.declared.dest.Proto.TheVariants.{V4, V6};
ghost use Rattle.types.specs.declared.discard.Discard.TheVariants as reason;
ghost use Rattle.requests.specs.Addressee.{addressee};
ghost use Rattle.circuit_server.specs.Server.{served};
ghost use Rattle.lease_disk.specs.HalfBytes.{half_bytes};
ghost use Rattle.lease_disk.specs.Recovered.{recovered};
ghost use Rattle.lease_disk.specs.declared.content.Content.TheVariants.{Four, Six};
ghost use Rattle.relay.specs.Relays.{relayed_up};
ghost use Rattle.world.specs.Alone.{alone_step, after_all, frames, Dropped, Gone, SentDown, start, Old, Moving};
ghost use Rattle.promises.specs.Examples.{part_a, with_relays, setup_a, setup_a1, at_port, client_message, discover};
ghost use Rattle.promises.specs.Examples.{discover_up, peer, solicit, solicit_up, relayed_message, relayed_discover};
ghost use Rattle.promises.specs.Examples.{offer, client, offers_at, one_offer, lease_until, datagram, with_up, begun};
ghost use Rattle.promises.specs.Examples.{no_leases, begun_off, asked, leased, closed, ack, begun_in_format_1};
ghost use Rattle.promises.specs.Examples.{turned_off, unreadable, release_up, decline_up, reboot_up, nak, barred_at};
ghost use Rattle.promises.specs.Examples.{saved_silently};
ghost use Rattle.promises.specs.Examples6.{message6, server_id6, ia6, timed_ia6, listed6, leased6, status6, relayed6};
ghost use Rattle.promises.specs.Examples6.{book6, bound6, barred6, replied6, client6};
ghost use Rattle.promises.specs.ExampleDisk.{bound_half, bound_half6, free_half, barred_half, laid, both_bound};
ghost use Rattle.promises.specs.ExampleDisk.{both_bound_in_format_1, two_slots};
ghost use Rattle.promises.specs.Granted.{Granted4, lines, restart_over};
ghost use Rattle.events.specs.Seen.{Frame, Up, Down, Tick, Restart, Turn};

/// What the relay sends up of a frame, and which frames it drops.
pub fn frames_go_up()
    ensures discover { relayed_up part_a V4 (discover 1 []) ≡ Ok (discover_up 1 []) }
    ensures request { relayed_up part_a V4 (client_message 3 1 []) ≡ Ok (relayed_message 3 (97 ∷ []) 0 1 []) }
    ensures from_server { relayed_up part_a V4 (client_message 2 1 []) ≡ Err reason.WrongType }
    ensures cut { relayed_up part_a V4 (take 243 (discover 1 [])) ≡ Err reason.MalformedUp }
    ensures twice { relayed_up part_a V4 (discover 1 (53 ∷ 1 ∷ 1 ∷ [])) ≡ Err reason.MalformedUp }
    ensures nothing { relayed_up part_a V4 [] ≡ Err reason.MalformedUp }
    ensures option_82 { relayed_up part_a V4 (discover 1 (82 ∷ 4 ∷ 1 ∷ 2 ∷ 97 ∷ 49 ∷ [])) ≡ Err reason.HasOption82 }
    ensures rest { relayed_up part_a V4 (discover 1 [] ++ replicate 780 0) ≡ Ok (discover_up 1 []) }
    ensures long { relayed_up part_a V4 (discover 1 [] ++ replicate 781 0) ≡ Err reason.TooLong }
{}

/// What the relay makes of DHCPv6 frames: the client's address, and its message.
pub fn frames_go_up6()
    ensures solicit { relayed_up part_a V6 (peer ++ solicit) ≡ Ok (solicit_up part_a.link6 (97 ∷ [])) }
    ensures nested { relayed_up part_a V6 (peer ++ 12 ∷ drop 1 solicit) ≡ Err reason.NestedRelay }
    ensures from_server { relayed_up part_a V6 (peer ++ 2 ∷ drop 1 solicit) ≡ Err reason.WrongType }
    ensures cut { relayed_up part_a V6 (take 49 (peer ++ solicit)) ≡ Err reason.MalformedUp }
    ensures short { relayed_up part_a V6 (take 19 (peer ++ solicit)) ≡ Err reason.MalformedUp }
{}

/// The server finds a DHCPv6 message's circuit by relay, id and link.
pub fn relay_messages_have_circuits()
    ensures first { addressee (with_relays (at_port 6801 ∷ []))
        (delivery V6 (at_port 6801) 100 (solicit_up part_a.link6 (97 ∷ []))) ≡ Ok 0 }
    ensures second { addressee (with_relays (at_port 6801 ∷ []))
        (delivery V6 (at_port 6801) 100 (solicit_up part_a.link6 (97 ∷ 49 ∷ []))) ≡ Ok 1 }
    ensures beginning { addressee (with_relays (at_port 6801 ∷ []))
        (delivery V6 (at_port 6801) 100 (solicit_up part_a.link6 (97 ∷ 49 ∷ 49 ∷ []))) ≡ Err reason.UnknownCircuit }
    ensures link { addressee (with_relays (at_port 6801 ∷ []))
        (delivery V6 (at_port 6801) 100 (solicit_up (replicate 16 0) (97 ∷ []))) ≡ Err reason.WrongLink }
    ensures unrelayed { addressee (with_relays (at_port 6801 ∷ [])) (delivery V6 (at_port 6801) 100 solicit) ≡ Err reason.NotRelayed }
    ensures cut { addressee (with_relays (at_port 6801 ∷ []))
        (delivery V6 (at_port 6801) 100 (take 76 (solicit_up part_a.link6 (97 ∷ [])))) ≡ Err reason.Malformed }
{}

/// The server finds the circuit by relay, id, gateway and override, and by none of them alone.
pub fn datagrams_have_circuits()
    ensures first { addressee (with_relays (at_port 6801 ∷ [])) (delivery V4 (at_port 6801) 100 (discover_up 1 [])) ≡ Ok 0 }
    ensures second { addressee (with_relays (at_port 6801 ∷ []))
        (delivery V4 (at_port 6801) 100 (relayed_discover (97 ∷ 49 ∷ []) 1 1 [])) ≡ Ok 1 }
    ensures source { addressee (with_relays (at_port 6801 ∷ [])) (delivery V4 (at_port 9999) 100 []) ≡ Err reason.UnknownSource }
    ensures relay { addressee (with_relays (at_port 6801 ∷ at_port 6802 ∷ []))
        (delivery V4 (at_port 6802) 100 (discover_up 1 [])) ≡ Err reason.UnknownCircuit }
    ensures beginning { addressee (with_relays (at_port 6801 ∷ []))
        (delivery V4 (at_port 6801) 100 (relayed_discover (97 ∷ 49 ∷ 49 ∷ []) 1 1 [])) ≡ Err reason.UnknownCircuit }
    ensures gateway { addressee (with_relays (at_port 6801 ∷ []))
        (delivery V4 (at_port 6801) 100 (relayed_discover (97 ∷ []) 1 1 [])) ≡ Err reason.WrongLink }
    ensures unrelayed { addressee (with_relays (at_port 6801 ∷ [])) (delivery V4 (at_port 6801) 100 (discover 1 []))
        ≡ Err reason.NotRelayed }
    ensures cut { addressee (with_relays (at_port 6801 ∷ []))
        (delivery V4 (at_port 6801) 100 (take 254 (discover_up 1 []))) ≡ Err reason.Malformed }
{}

/// A client's DHCPDISCOVER and the frame with its offer, byte for byte. The same frame on another
/// circuit is offered that circuit's address.
pub fn an_offer_comes_back()
    ensures one { frames setup_a (Frame V4 (discover 1 []) ∷ Up 0 100 0 ∷ Down 0 ∷ []) begun ≡ offer 0 ∷ [] }
    ensures other { frames setup_a1 (Frame V4 (discover 1 []) ∷ Up 0 100 0 ∷ Down 0 ∷ []) begun ≡ offer 1 ∷ [] }
{}

/// An offer holds its address for 60 seconds and not longer.
pub fn offers_expire()
    ensures held { (alone_step setup_a (Up 0 159 0)
        (with_up (discover_up 2 []) 100 (one_offer (client 1) (lease_until 160)))).effect ≡ Dropped reason.NoAddress }
    ensures over { (alone_step setup_a (Up 0 160 0)
        (with_up (discover_up 2 []) 100 (one_offer (client 1) (lease_until 160)))).effect ≡ SentDown 300 }
{}

/// A moment before the clock leaves the clock, and an offer is counted from there.
pub fn clocks_never_go_back()
    ensures { (alone_step setup_a (Up 0 50 0) (with_up (discover_up 1 []) 100 empty)).next.book
        ≡ Some (offers_at 100 (one_offer (client 1) (lease_until 160))) }
{}

/// Client identifiers of 2 to 64 bytes are served.
pub fn keys_have_limits()
    ensures short { (alone_step setup_a (Up 0 100 0) (with_up (discover_up 1 (61 ∷ 1 ∷ replicate 1 7)) 0 empty)).effect
        ≡ Dropped reason.ClientKey }
    ensures least { (alone_step setup_a (Up 0 100 0) (with_up (discover_up 1 (61 ∷ 2 ∷ replicate 2 7)) 0 empty)).effect ≡ SentDown 300 }
    ensures most { (alone_step setup_a (Up 0 100 0) (with_up (discover_up 1 (61 ∷ 64 ∷ replicate 64 7)) 0 empty)).effect ≡ SentDown 300 }
    ensures long { (alone_step setup_a (Up 0 100 0) (with_up (discover_up 1 (61 ∷ 65 ∷ replicate 65 7)) 0 empty)).effect
        ≡ Dropped reason.ClientKey }
{}

/// The network keeps the newest datagrams of a direction, and no more than its quota. What the relay drops never gets
/// there, and what goes up does not come down.
pub fn the_network_keeps_the_newest()
    ensures none { (alone_step setup_a (Up 0 100 0) (after_all setup_a (Frame V4 (client_message 2 1 []) ∷ []) begun)).effect ≡ Gone }
    ensures apart { (alone_step setup_a (Down 0) (after_all setup_a (Frame V4 (discover 1 []) ∷ []) begun)).effect ≡ Gone }
    ensures both { (after_all setup_a (Frame V4 (discover 1 []) ∷ Frame V4 (discover 2 []) ∷ []) begun).up
        ≡ datagram (discover_up 2 []) ∷ datagram (discover_up 1 []) ∷ [] }
    ensures last { (after_all (record setup_a { quota = 1 }) (Frame V4 (discover 1 []) ∷ Frame V4 (discover 2 []) ∷ []) begun).up
        ≡ datagram (discover_up 2 []) ∷ [] }
    ensures lost { (alone_step (record setup_a { quota = 1 }) (Up 1 100 0) (after_all (record setup_a { quota = 1 })
        (Frame V4 (discover 1 []) ∷ Frame V4 (discover 2 []) ∷ []) begun)).effect ≡ Gone }
{}

/// A DHCPREQUEST that the server answers: the DHCPACK's frame, byte for byte, and what is saved before
/// it leaves.
pub fn a_lease_is_kept()
    ensures ack { frames setup_a (Up 0 110 0 ∷ Down 0 ∷ []) asked ≡ ack 0 ∷ [] }
    ensures kept { (alone_step setup_a (Up 0 110 0) asked).next.kept ≡ Some leased }
    ensures sure { (alone_step setup_a (Up 0 110 0) asked).next.doubt ≡ None }
{}

/// A client's DHCPRELEASE frees its address, and its DHCPDECLINE bars it for an hour. Both are saved, and nothing is
/// answered.
pub fn a_lease_is_given_up()
    ensures release { served part_a (delivery V4 part_a.relay 400 release_up) leased ≡ saved_silently (offers_at 400 empty) }
    ensures decline { served part_a (delivery V4 part_a.relay 400 decline_up) leased ≡ saved_silently (barred_at 400 4000) }
{}

/// A client that comes back with an address outside the pool is sent a DHCPNAK: its frame, byte for byte.
pub fn a_foreign_address_is_refused()
    ensures { frames setup_a (Up 0 110 0 ∷ Down 0 ∷ []) (with_up reboot_up 100 empty) ≡ nak ∷ [] }
{}

/// A row of each type of the DHCPv6 table: the reply, byte for byte, the book after it, and whether it is saved before.
pub fn each_type_of_dhcpv6_is_answered()
    ensures solicit { served part_a (delivery V6 part_a.relay 100 (relayed6 12 (message6 1 (ia6 [])))) no_leases
        ≡ replied6 (message6 2 (server_id6 ++ timed_ia6 leased6)) (book6 100 empty empty) false }
    ensures request { served part_a
        (delivery V6 part_a.relay 100 (relayed6 12 (message6 3 (server_id6 ++ ia6 (listed6 0))))) no_leases
        ≡ replied6 (message6 7 (server_id6 ++ timed_ia6 leased6)) (book6 100 (bound6 700) empty) true }
    ensures confirm { served part_a (delivery V6 part_a.relay 400 (relayed6 12 (message6 4 (ia6 (listed6 0)))))
        (book6 100 (bound6 700) empty)
        ≡ replied6 (message6 7 (server_id6 ++ status6 0)) (book6 400 (bound6 700) empty) false }
    ensures elsewhere { served part_a (delivery V6 part_a.relay 400 (relayed6 12 (message6 4 (ia6 (listed6 1)))))
        (book6 100 (bound6 700) empty)
        ≡ replied6 (message6 7 (server_id6 ++ status6 4)) (book6 400 (bound6 700) empty) false }
    ensures renew { served part_a
        (delivery V6 part_a.relay 400 (relayed6 12 (message6 5 (server_id6 ++ ia6 (listed6 1 ++ listed6 0)))))
        (book6 100 (bound6 700) empty)
        ≡ replied6 (message6 7 (server_id6 ++ timed_ia6 (listed6 1 ++ leased6))) (book6 400 (bound6 1000) empty) true }
    ensures rebind { served part_a (delivery V6 part_a.relay 400 (relayed6 12 (message6 6 (ia6 (listed6 0))))) no_leases
        ≡ replied6 (message6 7 (server_id6 ++ ia6 (status6 3))) (book6 400 empty empty) false }
    ensures release { served part_a
        (delivery V6 part_a.relay 400 (relayed6 12 (message6 8 (server_id6 ++ ia6 (listed6 0)))))
        (book6 100 (bound6 700) empty) ≡ replied6 (message6 7 (server_id6 ++ status6 0)) (book6 400 empty empty) true }
    ensures decline { served part_a
        (delivery V6 part_a.relay 400 (relayed6 12 (message6 9 (server_id6 ++ ia6 (listed6 0)))))
        (book6 100 (bound6 700) empty)
        ≡ replied6 (message6 7 (server_id6 ++ status6 0)) (book6 400 empty (barred6 4000)) true }
{}

/// What a save writes of a slot: a half, byte for byte.
pub fn a_slot_is_written()
    ensures bound { half_bytes 0 110 (Four (slot4.Bound (client 1) 710)) ≡ bound_half }
    ensures bound6 { half_bytes 2 100 (Six (slot6.Bound client6 700)) ≡ bound_half6 }
    ensures free { half_bytes 1 110 (Four slot4.Free) ≡ free_half }
    ensures free6 { half_bytes 1 110 (Six slot6.Free) ≡ free_half }
    ensures barred { half_bytes 0 400 (Four (slot4.Barred 4000)) ≡ barred_half }
    ensures barred6 { half_bytes 0 400 (Six (slot6.Barred 4000)) ≡ barred_half }
{}

/// What a region means to pools of one address each. Of two open halves the one counts whose sequence follows the other's.
/// The clock is the greatest of those that count, and what has ended by it is free. A slot without a half that counts, or
/// with a state or a length past its limit, is damage.
pub fn a_region_is_recovered()
    ensures bound { recovered (1 ∷ 1 ∷ []) (laid both_bound) ≡ Some (two_slots 110 (slot4.Bound (client 1) 710) (slot6.Bound client6 700)) }
    ensures format_1 { recovered (1 ∷ 1 ∷ []) (laid both_bound_in_format_1)
        ≡ Some (two_slots 110 (slot4.Bound (client 1) 710) (slot6.Bound client6 700)) }
    ensures newer { recovered (1 ∷ 1 ∷ []) (laid ((16640, free_half) ∷ both_bound))
        ≡ Some (two_slots 110 slot4.Free (slot6.Bound client6 700)) }
    ensures around { recovered (1 ∷ 1 ∷ []) (laid ((24832, barred_half) ∷ both_bound))
        ≡ Some (two_slots 400 (slot4.Bound (client 1) 710) (slot6.Barred 4000)) }
    ensures over { recovered (1 ∷ 1 ∷ []) (laid ((24590, 2 ∷ 198 ∷ []) ∷ both_bound)) ≡ Some (two_slots 710 slot4.Free slot6.Free) }
    ensures no_half { recovered (1 ∷ 1 ∷ []) (laid ((16384, 0 ∷ []) ∷ both_bound)) ≡ None }
    ensures state { recovered (1 ∷ 1 ∷ []) (laid ((24577, 3 ∷ []) ∷ both_bound)) ≡ None }
    ensures short_key { recovered (1 ∷ 1 ∷ []) (laid ((16386, 1 ∷ []) ∷ both_bound)) ≡ None }
    ensures long_duid { recovered (1 ∷ 1 ∷ []) (laid ((24578, 131 ∷ []) ∷ both_bound)) ≡ None }
{}

/// Where the last call of the save fails, the circuit closes and sends nothing. A restart then finds
/// the lease where the gate's byte became 0xA5, and what was saved before where it became 0.
pub fn a_lease_is_in_doubt()
    ensures dropped { (alone_step setup_a (Up 0 110 6) asked).effect ≡ Dropped reason.DiskFault }
    ensures closed { (alone_step setup_a (Up 0 110 6) asked).next ≡ closed }
    ensures found { (after_all setup_a (Up 0 110 6 ∷ restart_over 0xa5 0 ∷ []) asked).book ≡ Some leased }
    ensures lost { (after_all setup_a (Up 0 110 6 ∷ restart_over 0 0 ∷ []) asked).book ≡ Some no_leases }
{}

/// A closed circuit answers nothing, whatever moment passes.
pub fn a_closed_circuit_is_silent()
    ensures dropped { (alone_step setup_a (Up 0 110 0) closed).effect ≡ Dropped reason.CircuitClosed }
    ensures same { (alone_step setup_a (Up 0 110 0) closed).next ≡ closed }
    ensures tick { (alone_step setup_a (Tick 200) closed).next ≡ closed }
{}

/// A region that cannot be read closes its circuit, and loses nothing of what was saved or in doubt.
pub fn an_unreadable_region_closes()
    ensures open { (alone_step setup_a (Restart unreadable) begun).next.book ≡ None }
    ensures kept { (after_all setup_a (Restart unreadable ∷ restart_over 0 0 ∷ []) begun).book ≡ Some no_leases }
    ensures doubt { (alone_step setup_a (Restart unreadable) closed).next ≡ closed }
    ensures found { (after_all setup_a (Restart unreadable ∷ restart_over 0xa5 0 ∷ []) closed).book ≡ Some leased }
{}

/// What the DHCPACK of a lease grants.
pub fn a_lease_is_granted()
    ensures { lines setup_a (Up 0 110 0) asked
        ≡ Granted4 (record { client = client 1; address = 167772170; until = 710; clock = 110 }) ∷ [] }
{}

/// A region of format 1 comes back as one of format 2 with the same book. Where its move fails, the circuit is closed until
/// a restart, which moves it; where the third or fourth call failed, the region may be of format 2 already. A damaged one
/// stays of format 1.
pub fn a_region_moves()
    ensures moved { begun_in_format_1 0 ≡ begun }
    ensures closed { (begun_in_format_1 2).book ≡ None }
    ensures kept { (begun_in_format_1 2).kept ≡ Some no_leases }
    ensures old { (begun_in_format_1 2).format ≡ Old }
    ensures moving { (begun_in_format_1 3).format ≡ Moving }
    ensures again { after_all setup_a (restart_over 0 0 ∷ []) (begun_in_format_1 2) ≡ begun }
    ensures fails { after_all setup_a (restart_over 0 2 ∷ []) (begun_in_format_1 3) ≡ begun_in_format_1 2 }
    ensures new { after_all setup_a (restart_over 2 2 ∷ []) (begun_in_format_1 3) ≡ begun }
    ensures damaged { (start true 0 None false).format ≡ Old }
{}

/// A circuit that turns off loses its offers and what the network had of it, and nothing of it goes on while it is off; its
/// leases and its clock stay. One that turns on is served.
pub fn a_circuit_turns_off()
    ensures off { (alone_step setup_a (Turn false) asked).next ≡ turned_off }
    ensures frame { (alone_step setup_a (Frame V4 (discover 1 [])) turned_off).effect ≡ Gone }
    ensures up { (alone_step setup_a (Up 0 110 0) turned_off).effect ≡ Gone }
    ensures down { (alone_step setup_a (Down 0) turned_off).effect ≡ Gone }
    ensures on { frames setup_a (Turn true ∷ Frame V4 (discover 1 []) ∷ Up 0 100 0 ∷ Down 0 ∷ []) begun_off ≡ offer 0 ∷ [] }
    ensures leases { (after_all setup_a (Up 0 110 0 ∷ Turn false ∷ Turn true ∷ []) asked).kept ≡ Some leased }
{}
