//! The registers of a hart by the names of the calling convention (RISC-V ABIs, "Register Convention").

/// The names of x0 to x31.
const NAMES: [&str; 32] = [
    "zero", "ra", "sp", "gp", "tp", "t0", "t1", "t2", "s0", "s1", "a0", "a1", "a2", "a3", "a4",
    "a5", "a6", "a7", "s2", "s3", "s4", "s5", "s6", "s7", "s8", "s9", "s10", "s11", "t3", "t4",
    "t5", "t6",
];

/// The name of a register.
pub fn register_name(number: usize) -> &'static str {
    match NAMES.get(number) {
        Some(name) => name,
        None => "?",
    }
}

/// The number of the register of a name.
pub fn register_number(name: &str) -> Option<u64> {
    let mut number = 0u64;
    for known in NAMES.iter() {
        if *known == name {
            return Some(number);
        }
        number = number.saturating_add(1);
    }
    None
}
