// The ring bays and the parcels: a ring takes bytes out of a parcel and gives bytes into one.
#![tactic(auto, unfolding(crate::specs::Bay::zeros, crate::specs::Bay::empty_bay, crate::specs::Bay::empty_parcel, crate::specs::Bay::in_range, crate::specs::Bay::put_fits, crate::specs::Bay::get_fits, crate::specs::Round::going_round))]

ghost use Rattle.std.specs.Prelude.{◌≡◌, []};
ghost use Rattle.bay.specs.Round.{going_round};
ghost use Rattle.bay.specs.Bay.{empty_bay, in_range, put_fits, get_fits, put_of, get_of, reset_of, empty_parcel, ring_of};

// A process's parcel: the bytes that wait to enter a ring, or to be collected, if it holds any. The rest is zero, and no
// vector takes its place: the memory is fixed, and `parcel_of` speaks of all 64 bytes.
#[derive(Clone, Copy)]
pub struct Parcel {
    pub bytes: [u8; 64],
    // How many bytes it holds, or nothing.
    pub holds: Option<u8>,
}

// A ring in its bay, a true circle of the bay's first `size` bytes: `held` bytes from `start` on, round the end. The bay is fixed
// memory, and the state's layout has its three numbers, so no queue of the library takes its place.
#[derive(Clone, Copy)]
pub struct Ring {
    pub bytes: [u8; 256],
    pub start: u16,
    pub size: u16,
    pub held: u16,
}

// What a get leaves: the ring and the parcel.
#[derive(Clone, Copy)]
pub struct Moved {
    pub ring: Ring,
    pub parcel: Parcel,
}

// The parcel that holds nothing.
pub fn empty_parcel() -> Parcel
    ensures { result ≡ empty_parcel }
{
    Parcel {
        bytes: [0; 64],
        holds: None,
    }
}

// A bay that no ring has.
pub fn empty_bay() -> Ring
    ensures { result ≡ empty_bay }
{
    Ring {
        bytes: [0; 256],
        start: 0,
        size: 0,
        held: 0,
    }
}

// A fresh ring: nothing is held, and it starts at 0.
pub fn ring_of_size(size: u16) -> Ring
    ensures { result ≡ ring_of 0 size [] }
{
    Ring {
        size,
        ..empty_bay()
    }
}

// Whether these are the numbers of a ring: a size of at most 256, a start below it, no more held than it. It takes three
// numbers and no ring: its clause, `in_range start size held`, is of any three.
pub fn in_range(start: u16, size: u16, held: u16) -> bool
    ensures { result ≡ in_range start size held }
{
    size <= 256 && start < size && held <= size
}

// Whether n bytes lie in a parcel from its byte `from` on, and find room in the ring.
fn put_fits(ring: &Ring, from: u8, n: u8) -> bool
    ensures { result ≡ put_fits ring.now.start ring.now.size ring.now.held from n }
{
    usize::from(from) + usize::from(n) <= 64
        && usize::from(ring.held) + usize::from(n) <= usize::from(ring.size)
        && in_range(ring.start, ring.size, ring.held)
}

// Whether n bytes are held, and find room in a parcel from its byte `at` on. Beside `put_fits` it asks for bytes where that
// asks for room: one function with a test as a parameter would be longer.
fn get_fits(ring: &Ring, at: u8, n: u8) -> bool
    ensures { result ≡ get_fits ring.now.start ring.now.size ring.now.held at n }
{
    usize::from(at) + usize::from(n) <= 64
        && u16::from(n) <= ring.held
        && in_range(ring.start, ring.size, ring.held)
}

// Where the count k from the bay's first byte lies: it goes round at the size, once.
fn going_round(size: usize, k: usize) -> usize
    ensures { result ≡ going_round size k }
{
    if k < size { k } else { k - size }
}

// n bytes of the parcel, from its byte `from` on, enter the ring behind the held ones, round the end.
// Numbers that do not fit leave the ring as it is.
pub fn put(ring: Ring, parcel: Parcel, from: u8, n: u8) -> Ring
    ensures { result ≡ put_of ring parcel from n }
{
    if !put_fits(&ring, from, n) {
        return ring;
    }
    let start = ring.start as usize;
    let size = ring.size as usize;
    let held = ring.held as usize;
    let first = from as usize;
    let count = n as usize;
    let mut next = ring;
    for i in 0..count {
        next.bytes[going_round(size, start + (held + i))] = parcel.bytes[first + i];
    }
    next.held = (held + count) as u16;
    next
}

// The first n held bytes leave the ring into the parcel, from its byte `at` on, and the cells they leave are cleared.
// Numbers that do not fit leave both as they are.
pub fn get(ring: Ring, parcel: Parcel, at: u8, n: u8) -> Moved
    ensures { result ≡ get_of ring parcel at n }
{
    if !get_fits(&ring, at, n) {
        return Moved { ring, parcel };
    }
    let start = ring.start as usize;
    let size = ring.size as usize;
    let held = ring.held as usize;
    let first = at as usize;
    let count = n as usize;
    let mut next = ring;
    let mut bytes = parcel.bytes;
    for i in 0..count {
        let from = going_round(size, start + i);
        let byte = next.bytes[from];
        bytes[first + i] = byte;
        next.bytes[from] = 0;
    }
    next.start = going_round(size, start + count) as u16;
    next.held = (held - count) as u16;
    Moved {
        ring: next,
        parcel: Parcel {
            bytes,
            holds: Some((first + count) as u8),
        },
    }
}

// The held bytes are thrown away: the ring holds nothing and starts behind them.
pub fn reset(ring: Ring) -> Ring
    ensures { result ≡ reset_of ring }
{
    if !in_range(ring.start, ring.size, ring.held) {
        return ring;
    }
    let start = ring.start as usize;
    let size = ring.size as usize;
    let held = ring.held as usize;
    Ring {
        bytes: [0; 256],
        start: going_round(size, start + held) as u16,
        held: 0,
        ..ring
    }
}
