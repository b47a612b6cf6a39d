// Whether a classifier matches a packet (document 01, "Choosing and judging").
//
// Public functions: `entry_of` fills a classifier's absent parts in, `fits_packet` compares it with a packet.
// Both take any input and refuse nothing; nothing is written. The port is tested ahead of the addresses (document 02,
// Req 03): whether all tests hold does not depend on their order. `|` and `&` work out both of their sides, so that an
// entry that misses on its port costs one branch.
#![tactic(auto)]

ghost use Rattle.std.specs.Prelude.{◌≡◌, not, cond, ◌||◌};
ghost use Rattle.table.specs.Table.{is_present};
ghost use Rattle.packets.specs.Packets.{as_packet};
ghost use Rattle.matching.specs.Entry.{ports_of, entry_of, port_fits, fits_packet};

use packets::{Packet, Port};
use table::Classifier;

// A classifier with its absent parts filled in; `ports` is 0 where it names no port.
// Kept: `ports` is a number, since it fills a place of `ports` of the record Tunnel, which C lends, and comes back from there as it stands.
#[derive(Clone, Copy)]
pub struct Entry {
    pub destination: u32,
    pub source: u32,
    pub mask: u32,
    pub start: u16,
    pub end: u16,
    pub number: u16,
    pub ports: u8,
}

// Whether there is a port, from `start` to `end`.
#[tactic(auto, unfolding(crate::specs::Entry::port_fits))]
fn port_fits(port: Port, start: u16, end: u16) -> bool
    ensures { result ≡ port_fits port start end }
{
    port.present && (start <= port.number) & (port.number <= end)
}

// The mark's value where it is there, else the other.
fn present_or<T: Copy>(mark: u8, value: T, other: T) -> T
    ensures { result ≡ cond (is_present mark) value other }
{
    if mark == 0 { other } else { value }
}

// Whether the classifier names a port: 1 or 0.
fn ports_of(hasstart: u8, hasend: u8) -> u8
    ensures { result ≡ ports_of hasstart hasend }
{
    if hasstart != 0 || hasend != 0 { 1 } else { 0 }
}

// The classifier with its absent parts filled in.
#[tactic(auto, unfolding(crate::specs::Entry::entry_of))]
pub fn entry_of(cl: Classifier) -> Entry
    ensures { result ≡ entry_of cl }
{
    let mask = present_or(cl.hasmask, cl.mask, u32::MAX);
    Entry {
        destination: cl.destination,
        source: present_or(cl.hassource, cl.source, 0),
        mask: present_or(cl.hassource, mask, 0),
        start: present_or(cl.hasstart, cl.start, 0),
        end: present_or(cl.hasend, cl.end, u16::MAX),
        number: cl.number,
        ports: ports_of(cl.hasstart, cl.hasend),
    }
}

// Whether the port passes the entry's test; an entry that names no port has none.
fn port_passes(entry: Entry, port: Port) -> bool
    ensures { result ≡ not (is_present entry.ports) || port_fits port entry.start entry.end }
{
    (entry.ports == 0) | port_fits(port, entry.start, entry.end)
}

// Whether an IPv4 packet with this port fits the entry. The port comes first: most frames miss on it.
#[tactic(auto, unfolding(crate::specs::Entry::fits_packet))]
pub fn fits_packet(entry: Entry, packet: Packet, port: Port) -> bool
    ensures { result ≡ fits_packet (as_packet (Some packet)) port entry }
{
    if !port_passes(entry, port) {
        return false;
    }
    packet.destination == entry.destination && packet.source & entry.mask == entry.source
}
