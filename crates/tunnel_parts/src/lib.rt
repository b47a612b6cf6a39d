// Judges a frame by a prepared tunnel that is lent (document 01, "Choosing and judging").
//
// One public function, `judge_lent`. It takes any tunnel and any frame: a frame of a wrong length is refusal 16,
// a tunnel of mode 0 refusal 17, and a count above its limit is read as the limit. Crate `preparing` makes
// tunnels. Nothing that is lent is written.
#![tactic(auto)]

ghost use Rattle.std.specs.Prelude.{◌≡◌, ◌<◌, false, cond, eqb, ltb};
ghost use Rattle.table.specs.Table.{limited_to};
ghost use Rattle.order.specs.Best.{first_place};
ghost use Rattle.packets.specs.Packets.{address_at, as_packet};
ghost use Rattle.matching.specs.Entry.{fits_packet, matches_entry};
ghost use Rattle.payloads.specs.Judged.{judged};
ghost use Rattle.tunnel_parts.specs.Prepared.{entry_at, entries_of, entry_verdict, prepared_verdict};

use matching::{Entry, fits_packet};
use numbers::{number2, number4};
use packets::{Packet, Port, read_packet, read_port, wrong_length};
use payloads::Verdict;
use refusals::Refusal;
use table::limited;

// A prepared tunnel. Mode 0: no rule fits; 1: the rule names no classifier; any other: by its entries,
// whose parts stand in the arrays in matching order, the first `count` places used.
// Kept: arrays side by side and marks as numbers, since C lends this record (`struct dsg_tunnel` of include/dsg.h): its fields, order and types stay.
#[repr(C)]
#[derive(Clone, Copy)]
pub struct Tunnel {
    pub address: u64,
    pub mode: u8,
    pub count: u8,
    pub destinations: [u32; 32],
    pub sources: [u32; 32],
    pub masks: [u32; 32],
    pub starts: [u16; 32],
    pub ends: [u16; 32],
    pub numbers: [u16; 32],
    pub ports: [u8; 32],
}

// The entry at a place.
fn entry_at(tunnel: &Tunnel, i: usize) -> Entry
    requires { i < 32 }
    ensures { result ≡ entry_at tunnel.now i }
{
    Entry {
        destination: tunnel.destinations[i],
        source: tunnel.sources[i],
        mask: tunnel.masks[i],
        start: tunnel.starts[i],
        end: tunnel.ends[i],
        number: tunnel.numbers[i],
        ports: tunnel.ports[i],
    }
}

// The place of the first entry that the packet fits; None where it fits none.
fn first_match(tunnel: &Tunnel, packet: Packet, port: Port) -> Option<usize>
    ensures { let place = first_place (fits_packet (as_packet (Some packet)) port) (entries_of tunnel.now) in result ≡ cond (ltb place (limited_to 32 tunnel.now.count)) (Some place) None }
{
    let count = limited(tunnel.count, 32);
    (0..count).position(|i| fits_packet(entry_at(tunnel, i), packet, port))
}

// The verdict on a packet by the entries.
#[tactic(auto, unfolding(crate::specs::Prepared::entry_verdict, payloads::specs::Judged::judged))]
fn judge_packet(tunnel: &Tunnel, packet: Packet, port: Port) -> Verdict
    ensures { judged result ≡ entry_verdict tunnel.now (fits_packet (as_packet (Some packet)) port) }
{
    match first_match(tunnel, packet, port) {
        None => Verdict::Filtered,
        Some(place) => Verdict::Forward(tunnel.numbers[place]),
    }
}

// The same on a packet without a port, which fits no entry that names one.
// Kept: a search of its own, with `inline(never)`: one search for both takes a quarter more where there is no port.
#[inline(never)]
fn judge_portless(tunnel: &Tunnel, packet: Packet, number: u16) -> Verdict
    ensures { judged result ≡ entry_verdict tunnel.now (fits_packet (as_packet (Some packet)) (record { present = false; number = number })) }
{
    let port = Port {
        present: false,
        number,
    };
    judge_packet(tunnel, packet, port)
}

// The verdict on a frame by the entries: one that is no IPv4 packet matches none.
fn judge_entries(tunnel: &Tunnel, frame: &[u8]) -> Verdict
    ensures { judged result ≡ entry_verdict tunnel.now (matches_entry frame.now) }
{
    let Some(packet) = read_packet(frame) else {
        return Verdict::Filtered;
    };
    let port = read_port(frame);
    if port.present {
        judge_packet(tunnel, packet, port)
    } else {
        judge_portless(tunnel, packet, port.number)
    }
}

// Whether the frame has the address, which is compared in two parts: the last two bytes first, in which addresses mostly differ.
fn has_address(frame: &[u8], address: u64) -> bool
    ensures { result ≡ eqb (address_at frame.now) address }
{
    let high = u64::from(number4(frame, 0));
    let low = u64::from(number2(frame, 4));
    low == address % 65536 && high == address / 65536
}

// The verdict by a prepared tunnel that is lent.
#[tactic(auto, unfolding(crate::specs::Prepared::prepared_verdict, crate::specs::Prepared::entry_verdict, payloads::specs::Judged::judged, refusals::specs::Refusals::number_of))]
pub fn judge_lent(tunnel: &Tunnel, frame: &[u8]) -> Verdict
    ensures { judged result ≡ prepared_verdict tunnel.now frame.now }
{
    if wrong_length(frame) {
        return Verdict::Refused(Refusal::FrameLength.number());
    }
    if tunnel.mode == 0 {
        return Verdict::Refused(Refusal::NoRule.number());
    }
    if !has_address(frame, tunnel.address) {
        return Verdict::Other;
    }
    if tunnel.mode == 1 {
        return Verdict::Forward(0);
    }
    judge_entries(tunnel, frame)
}
