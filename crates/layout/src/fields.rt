// The fields of a record's 24 bytes, the spare ones included.
ghost use Rattle.std.specs.Prelude.{◌≡◌};
ghost use Rattle.layout.specs.Layout.{fields_of, fields_in, bytes_of, put_in};

use crate::clock::Timestamp;
use limits::RECORD;

#[derive(Clone, Copy, Default)]
pub struct Fields {
    pub kind: u8,
    pub group: u8,
    pub process: u8,
    pub replica: u8,
    pub variable: u16,
    pub spare6: u16,
    pub timestamp: Timestamp,
    pub value: u32,
    pub spare20: u32,
}

// What 24 bytes say.
impl From<&[u8; RECORD]> for Fields {
    ghost from_gives = { λ b f. f ≡ fields_of b.now };

    fn from(b: &[u8; RECORD]) -> Fields {
        let timestamp = u64::from_be_bytes([b[8], b[9], b[10], b[11], b[12], b[13], b[14], b[15]]);
        Fields {
            kind: b[0],
            group: b[1],
            process: b[2],
            replica: b[3],
            variable: u16::from_be_bytes([b[4], b[5]]),
            spare6: u16::from_be_bytes([b[6], b[7]]),
            timestamp: Timestamp(timestamp),
            value: u32::from_be_bytes([b[16], b[17], b[18], b[19]]),
            spare20: u32::from_be_bytes([b[20], b[21], b[22], b[23]]),
        }
    }
}

// The 24 bytes that say it.
impl From<Fields> for [u8; RECORD] {
    ghost from_gives = { λ f b. b ≡ bytes_of f };

    fn from(f: Fields) -> [u8; RECORD] {
        let [v0, v1] = f.variable.to_be_bytes();
        let [s0, s1] = f.spare6.to_be_bytes();
        let [t0, t1, t2, t3, t4, t5, t6, t7] = f.timestamp.0.to_be_bytes();
        let [x0, x1, x2, x3] = f.value.to_be_bytes();
        let [z0, z1, z2, z3] = f.spare20.to_be_bytes();
        [
            f.kind, f.group, f.process, f.replica, v0, v1, s0, s1, t0, t1, t2, t3, t4, t5, t6, t7,
            x0, x1, x2, x3, z0, z1, z2, z3,
        ]
    }
}

impl Fields {
    // What 24 bytes say; of another number of bytes nothing is read.
    // No `TryFrom`, though it is a conversion: a public function that cannot fail stays one.
    pub fn of_bytes(bytes: &[u8]) -> Fields
        ensures { result ≡ fields_in bytes.now }
    {
        match bytes.as_array::<RECORD>() {
            Some(record) => Fields::from(record),
            None => Fields::default(),
        }
    }

    // Writes the 24 bytes at the start of the destination, if it has room for them.
    pub fn put(self, destination: &mut [u8])
        ensures { destination.new ≡ put_in self destination.old }
    {
        if let Some(record) = destination.first_chunk_mut() {
            *record = self.into();
        }
    }
}
