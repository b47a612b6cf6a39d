// The length of a frame, the IPv4 packet in it and its port (document 01, "Choosing and judging"; document 02, Req 02).
//
// Public functions: `wrong_length` tests a frame's length, `read_packet` reads what every classifier looks at, `read_port`
// what only those look at that name a port. They take any frame and refuse nothing: of what is no IPv4 packet `read_packet`
// answers None, and `read_port` is about IPv4 packets, which it does not ask again. The IP header is as long as the frame
// says. Nothing is written.
#![tactic(auto)]

ghost use Rattle.std.specs.Prelude.{◌≡◌};
ghost use Rattle.packets.specs.Packets.{wrong_length, header_end, is_ipv4, has_port, as_packet, packet_of, port_of};

use numbers::{number1, number2, number4};

// What every classifier looks at in an IPv4 packet: its addresses.
#[derive(Clone, Copy)]
pub struct Packet {
    pub destination: u32,
    pub source: u32,
}

// The destination port of an IPv4 packet: whether there is one, and the number in its place.
// Kept: a mark beside a number, since `read_port` promises the number also where there is no port (`port_of`); an Option would promise less.
#[derive(Clone, Copy)]
pub struct Port {
    pub present: bool,
    pub number: u16,
}

// Whether the frame is under 14 or over 1,518 bytes.
#[tactic(auto, unfolding(crate::specs::Packets::wrong_length))]
pub fn wrong_length(frame: &[u8]) -> bool
    ensures { result ≡ wrong_length frame.now }
{
    frame.len() < 14 || 1518 < frame.len()
}

// The byte behind the IP header, which begins at byte 14 and tells its length in words of four bytes.
#[tactic(auto, using(numbers::proofs::Laws::number_at_one), unfolding(crate::specs::Packets::header_end))]
fn header_end(frame: &[u8]) -> usize
    ensures { result ≡ header_end frame.now }
{
    14 + 4 * usize::from(number1(frame, 14) % 16)
}

// Whether the frame is an IPv4 packet of 34 bytes or more, whose header has five words or more and does not pass the
// frame's end.
#[tactic(auto, unfolding(crate::specs::Packets::is_ipv4))]
fn is_ipv4(frame: &[u8]) -> bool
    ensures { result ≡ is_ipv4 frame.now }
{
    frame.len() >= 34
        && number2(frame, 12) == 2048
        && frame[14] / 16 == 4
        && frame[14] % 16 >= 5
        && header_end(frame) <= frame.len()
}

// Whether the packet has a port: four bytes or more behind the header, no fragment behind the first, protocol 6 or 17.
#[tactic(auto, using(crate::proofs::Laws::header_end_le, numbers::proofs::Laws::number_at_one), unfolding(crate::specs::Packets::has_port))]
fn has_port(frame: &[u8]) -> bool
    ensures { result ≡ has_port frame.now }
{
    frame.len() >= header_end(frame) + 4
        && number2(frame, 20) % 8192 == 0
        && matches!(number1(frame, 23), 6 | 17)
}

// What every classifier looks at in the frame; None where it is no IPv4 packet.
#[tactic(auto, unfolding(crate::specs::Packets::packet_of, crate::specs::Packets::source_at, crate::specs::Packets::destination_at))]
pub fn read_packet(frame: &[u8]) -> Option<Packet>
    ensures { as_packet result ≡ packet_of frame.now }
{
    if !is_ipv4(frame) {
        return None;
    }
    let destination = number4(frame, 30);
    let source = number4(frame, 26);
    Some(Packet {
        destination,
        source,
    })
}

// The destination port of an IPv4 packet: the second pair of bytes behind its header.
#[tactic(auto, using(crate::proofs::Laws::header_end_le), unfolding(crate::specs::Packets::port_of, crate::specs::Packets::port_at))]
pub fn read_port(frame: &[u8]) -> Port
    ensures { result ≡ port_of frame.now }
{
    let present = has_port(frame);
    let end = header_end(frame);
    let number = number2(frame, end + 2);
    Port { present, number }
}
