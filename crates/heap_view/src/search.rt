ghost use Rattle.std.specs.Prelude.{◌≡◌, ◌+◌, ◌-◌, ◌*◌, ◌^◌, ◌≤◌, length, All};
ghost use Rattle.heap_view.specs.Points.{AreBuffersApart, FitsAddresses, place_of_word};
ghost use Rattle.heap_view.specs.Search.{order_of};

use crate::buffer::Buffer;
use std::cmp::Ordering;
use std::sync::ledger::Ledger;
use umem_base::Steps;

/// Whether the buffer stands below the address, has it, or stands above it: the one comparison of a look-up.
fn order_of<L: Ledger>(buffer: &Buffer, address: u64, steps: &mut Steps<L>) -> Ordering
    requires { FitsAddresses buffer.now }
    ensures order { result ≡ order_of buffer.now address }
    ensures step { steps.new ≡ steps.old + 1 }
{
    steps.tick();
    if address < buffer.address {
        return Ordering::Greater;
    }
    if address < buffer.address + buffer.size {
        Ordering::Equal
    } else {
        Ordering::Less
    }
}

/// The index of the buffer that has the address, among buffers that rise. It looks at the middle one of those
/// that are left.
pub fn place_of<L: Ledger>(buffers: &[Buffer], address: u64, steps: &mut Steps<L>) -> Option<usize>
    requires apart { AreBuffersApart buffers.now }
    requires fit { All FitsAddresses buffers.now }
    ensures value { result ≡ place_of_word address buffers.now }
    ensures rises { steps.old ≤ steps.new }
    ensures bound { 2 ^ (steps.new - steps.old) ≤ 2 * length buffers.now + 1 }
{
    let mut low = 0;
    let mut high = buffers.len();
    while low < high {
        let middle = low + (high - low) / 2;
        match order_of(&buffers[middle], address, steps) {
            Ordering::Equal => return Some(middle),
            Ordering::Less => low = middle + 1,
            Ordering::Greater => high = middle,
        }
    }
    None
}
