//! The checksum that `cksum` of POSIX prints.

/// The remainders of the numbers below 16, times 2^28, by the polynomial of Ethernet.
const REMAINDERS: [u32; 16] = [
    0x0000_0000,
    0x04c1_1db7,
    0x0982_3b6e,
    0x0d43_26d9,
    0x1304_76dc,
    0x17c5_6b6b,
    0x1a86_4db2,
    0x1e47_5005,
    0x2608_edb8,
    0x22c9_f00f,
    0x2f8a_d6d6,
    0x2b4b_cb61,
    0x350c_9b64,
    0x31cd_86d3,
    0x3c8e_a00a,
    0x384f_bdbd,
];

// The remainder with four bits more.
fn add_bits(sum: u32, bits: u32) -> u32 {
    let index = ((sum >> 28) ^ bits) & 15;
    (sum & 0x0fff_ffff) << 4 ^ REMAINDERS[index as usize]
}

fn add_byte(sum: u32, byte: u8) -> u32 {
    let high = add_bits(sum, u32::from(byte >> 4));
    add_bits(high, u32::from(byte & 15))
}

/// The checksum of some bytes, behind which their number stands, lowest byte first and without zeros at its end.
pub(crate) fn checksum(bytes: &[u8]) -> u32 {
    let mut sum = 0;
    for byte in bytes {
        sum = add_byte(sum, *byte);
    }
    let mut rest = bytes.len() as u64;
    for _ in 0..8 {
        if rest != 0 {
            sum = add_byte(sum, (rest % 256) as u8);
            rest /= 256;
        }
    }
    !sum
}
