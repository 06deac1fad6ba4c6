// Records: request and reply, 72 bytes each.
#![tactic(auto)]

ghost use Rattle.std.specs.Prelude.{◌≡◌, [], ◌∷◌};
ghost use Rattle.records.specs.Records.{number, zero_record, record_at, written_to};

// How many data bytes a record has, and its whole length.
pub const DATA: usize = 64;

pub const LENGTH: usize = 8 + DATA;

// A request or a reply.
#[derive(Clone, Copy)]
pub struct Record {
    // The call of a request, the code of a reply.
    pub what: u8,
    // The caller of a request, 0 the board or 1 the running process; in a reply the process running afterwards.
    pub who: u8,
    // The number N, the small field L and the amount M.
    pub n: u8,
    pub l: u8,
    pub m: u32,
    // The data.
    pub bytes: [u8; DATA],
}

// The number of four bytes, low byte first. (Public, so it stays; its clause is in the definitions' word.)
#[tactic(auto, unfolding(crate::specs::Records::number))]
pub fn number_of(a: u8, b: u8, c: u8, d: u8) -> u32
    ensures { result ≡ number (a ∷ b ∷ c ∷ d ∷ []) }
{
    u32::from_le_bytes([a, b, c, d])
}

// A record of zeros. (No derived Default: the library has none for 64 bytes.)
fn zero_record() -> Record
    ensures { result ≡ zero_record }
{
    Record {
        what: 0,
        who: 0,
        n: 0,
        l: 0,
        m: 0,
        bytes: [0; DATA],
    }
}

// The record that stands in 72 bytes; of any other number of bytes a record of zeros.
#[tactic(auto, using(crate::proofs::Laws::four), unfolding(crate::specs::Records::record_at, crate::specs::Records::record_of))]
pub fn read(s: &[u8]) -> Record
    ensures { result ≡ record_at s.now }
{
    if s.len() != LENGTH {
        return zero_record();
    }
    let mut bytes = [0; DATA];
    bytes.copy_from_slice(&s[8..]);
    Record {
        what: s[0],
        who: s[1],
        n: s[2],
        l: s[3],
        m: number_of(s[4], s[5], s[6], s[7]),
        bytes,
    }
}

// The record into 72 bytes; any other number of bytes stays as it is.
#[tactic(auto, unfolding(crate::specs::Records::written_to))]
pub fn write(s: &mut [u8], r: Record)
    ensures { s.new ≡ written_to s.old r }
{
    if s.len() != LENGTH {
        return;
    }
    let [a, b, c, d] = r.m.to_le_bytes();
    s[..8].copy_from_slice(&[r.what, r.who, r.n, r.l, a, b, c, d]);
    s[8..].copy_from_slice(&r.bytes);
}
