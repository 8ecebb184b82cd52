//! What nodes keep, taken over from the nodes of another state of the same program.
ghost use Rattle.std.specs.Prelude.{◌≡◌, ◌<◌, length};
ghost use Rattle.std.specs.List.{All};
ghost use Rattle.mtl_monitor.specs.Inner.Copying.{AgreeBut, HasRoomOf, HaveRoomOf};

use crate::node::Kept;
use circular_buffer::HeapCircularBuffer;

pub(crate) fn copy_ring<T: Copy + Drop>(
    ring: &mut HeapCircularBuffer<T>,
    other: &HeapCircularBuffer<T>,
)
    requires { ring.old.capacity ≡ other.now.capacity }
    ensures { ring.new ≡ other.now }
{
    let _length = other.len();
    ring.clear();
    let (front, back) = other.as_slices();
    ring.extend_from_slice(front);
    ring.extend_from_slice(back);
}

fn copy_kept(keeps: &mut Kept, other: &Kept)
    requires { HasRoomOf keeps.old other.now }
    ensures { keeps.new ≡ other.now }
{
    match (keeps, other) {
        (Kept::Ring(line), Kept::Ring(other)) => line.copy_from(other),
        (Kept::Window(seen), Kept::Window(other)) => *seen = *other,
        (Kept::Since(hits, bars), Kept::Since(other_hits, other_bars)) => {
            *hits = *other_hits;
            *bars = *other_bars;
        }
        (Kept::Until(outlook), Kept::Until(other)) => outlook.copy_from(other),
        _ => {}
    }
}

/// Takes over what other nodes of the same program keep, where all but those of these indices keep the same already.
pub(crate) fn copy_listed(states: &mut [Kept], others: &[Kept], keepers: &[usize])
    requires same { length states.old ≡ length others.now }
    requires inside { All (λ k. k < length others.now) keepers.now }
    requires room { HaveRoomOf states.old others.now }
    requires agree { AgreeBut keepers.now 0 states.old others.now }
    ensures { states.new ≡ others.now }
{
    for k in keepers {
        copy_kept(&mut states[*k], &others[*k]);
    }
}
