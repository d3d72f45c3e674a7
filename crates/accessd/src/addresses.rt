//! What is wrong with the addresses of the server and the relays.
ghost use Rattle.std.specs.Prelude.{◌≤◌, ◌+◌, ◌*◌, length};

use access::warn;
use config::Config;
use types::{Addr4, RelayNo, Source};

/// Reports what is wrong with an address, in a line of its own.
fn report_address(rt: &HostRuntime, config: &Config, port: u16, at: Source)
    requires ports { port + 4 * length config.now.circuits ≤ 65536 }
{
    if let Some(warning) = warn(at, port, config.circuit_count()) {
        let Source { addr, port } = at;
        let Addr4([a, b, c, d]) = addr;
        let _ = eprintln!(rt; "{a}.{b}.{c}.{d}:{port}: {warning}");
    }
}

/// Warns of each address of the server and the relays that serves nobody, or to which frames towards clients go.
pub fn report_addresses(rt: &HostRuntime, config: &Config, port: u16)
    requires ports { port + 4 * length config.now.circuits ≤ 65536 }
{
    report_address(rt, config, port, config.server().listen4);
    report_address(rt, config, port, config.server().listen6);
    for index in 0..config.relay_count() {
        let source = config.relay(RelayNo::at(index)).source;
        report_address(rt, config, port, source);
    }
}
