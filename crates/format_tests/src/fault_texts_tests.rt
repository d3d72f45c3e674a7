//! The texts of the faults, which no program writes.
use std::alloc::Global;
use std::fmt::Display;
use v4_options::{OptFault, SuboptFault};
use wire::{Full, Short};

/// Whether a fault has this text.
fn says<T: Display>(alloc: Global, fault: &T, text: &str) -> bool {
    match format!(in alloc; "{fault}") {
        Ok(said) => said.as_str() == text,
        Err(_) => false,
    }
}

fn all_say(alloc: Global) -> bool {
    says(alloc, &Short, "too few bytes are left")
        && says(alloc, &Full, "more than 1280 bytes")
        && says(alloc, &OptFault::Twice, "an option appears twice")
        && says(alloc, &SuboptFault::Cut, "a suboption is cut off")
        && says(
            alloc,
            &v4_message::MessageFault::Cookie,
            "the message has no DHCP cookie",
        )
        && says(alloc, &v6_options::OptFault::Cut, "an option is cut off")
        && says(
            alloc,
            &v6_message::RelayFault::Short,
            "the relay message is too short",
        )
        && says(
            alloc,
            &v6_message::MessageFault::IaCount,
            "the message has not exactly one IA_NA",
        )
        && says(alloc, &types::duid::Length, "a DUID has 3 to 130 bytes")
}

#[test]
fn faults_have_texts(rt: HostRuntime) {
    assert!(rt; all_say(rt.alloc()));
}
