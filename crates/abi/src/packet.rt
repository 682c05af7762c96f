// The camera on the network: one transaction's containers as packets and back, and a packet by itself.
ghost use Rattle.layout.specs.Answer.{says_count};
ghost use Rattle.std.specs.Prelude.{◌≡◌, ◌∷◌};
ghost use Rattle.layout.specs.Written.{Wrote};
ghost use Rattle.network.specs.Packet.{packet_at};
ghost use Rattle.network.specs.Translated.{to_said, from_said};
ghost use Rattle.abi.specs.Answered.{Gives, given};
ghost use Rattle.abi.specs.Packets.{direction_of, body_start, packet_row};

use crate::answer;
use layout::Refusal;
use network::{Direction, Packet};
use wire::Cursor;

fn direction(to_camera: bool) -> Direction
    ensures { result ≡ direction_of to_camera }
{
    if to_camera {
        Direction::Out
    } else {
        Direction::In
    }
}

// The containers as packets; the data go to the camera where `to_camera` is true, and else come from it.
#[unsafe(no_mangle)]
pub extern "C" fn ptp_to_network(s: &[u8], to_camera: bool, out: &mut [u8]) -> u64
    ensures { Gives (to_said (direction_of to_camera) s.now) out.old result out.new }
{
    answer::told(network::to_network(s, direction(to_camera), out))
}

// The packets as containers.
#[unsafe(no_mangle)]
pub extern "C" fn ptp_from_network(s: &[u8], out: &mut [u8]) -> u64
    ensures { Gives (from_said s.now) out.old result out.new }
{
    answer::told(network::from_network(s, out))
}

// Start data has neither parameters nor data.
fn body_start(x: Packet) -> usize
    ensures { result ≡ body_start x }
{
    let body = x.body;
    if x.kind == 9 { 0 } else { body.start }
}

fn packet_row(x: Packet, next: usize) -> [u64; 8]
    ensures { result ≡ next ∷ packet_row x }
{
    let start = body_start(x);
    [
        next as u64,
        x.kind as u64,
        x.phase as u64,
        x.code as u64,
        x.number as u64,
        x.total,
        start as u64,
        x.body.count as u64,
    ]
}

fn give_packet(s: &[u8], at: usize, out: &mut [u64]) -> Result<usize, Refusal>
    ensures { Wrote (given packet_row (packet_at s.now at)) out.old (says_count result) out.new }
{
    let (x, next) = network::read_packet(s, Cursor { at })?;
    answer::give(&packet_row(x, next.at), out)
}

// Of the packet at a place: the place after it, its kind, phase, code, number and total, where its parameters or data begin and how many bytes they are.
// 0 where its kind has none.
#[unsafe(no_mangle)]
pub extern "C" fn ptp_read_packet(s: &[u8], at: usize, out: &mut [u64]) -> u64
    ensures { Gives (given packet_row (packet_at s.now at)) out.old result out.new }
{
    answer::told(give_packet(s, at, out))
}
