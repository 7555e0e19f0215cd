//! Lists and rings that take over the items of another, in place.

ghost use Rattle.std.specs.Prelude.{◌≡◌, ◌≤◌, length, vec_capacity};

use arrayvec::ArrayVec;
use circular_buffer::HeapCircularBuffer;

/// The list has the items of another. Takes no memory.
pub fn copy_list<T: Copy + Default, const N: usize>(
    list: &mut ArrayVec<T, N>,
    other: &ArrayVec<T, N>,
)
    ensures { list.new.items ≡ other.now.items }
{
    list.clear();
    let _fits = list.try_extend_from_slice(other.as_slice());
}

/// The ring has the items of another of its capacity. Takes no memory.
#[tactic(auto, using(crate::proofs::Rings::filled))]
pub fn copy_ring<T: Copy>(ring: &mut HeapCircularBuffer<T>, other: &HeapCircularBuffer<T>)
    requires { ring.old.capacity ≡ other.now.capacity }
    ensures items { ring.new.items ≡ other.now.items }
    ensures capacity { ring.new.capacity ≡ ring.old.capacity }
{
    let _len = other.len();
    let (first, second) = other.as_slices();
    ring.clear();
    let _first = ring.fill_from_slice(first);
    let _second = ring.fill_from_slice(second);
}

/// The list has the items of another, for which it has room. Takes no memory.
pub fn copy_items<T: Copy>(list: &mut Vec<T>, other: &[T])
    requires { length other.now ≤ vec_capacity list.old }
    ensures items { list.new.items ≡ other.now }
    ensures capacity { vec_capacity list.old ≤ vec_capacity list.new }
{
    list.clear();
    let _fits = list.extend_from_slice(other);
}
