//! The names of the registers.

ghost use Rattle.std.specs.Prelude.{◌≡◌, ◌<◌, IfSome};
ghost use Rattle.evm_asm_lexer.specs.Names.{named, register_named, fixed_registers, argument_registers, saved_registers, temporary_registers, registers_to_7, registers_to_15, registers_to_23, registers_to_31};

use evm_isa::Register;

#[tactic(auto, unfolding(crate::specs::Names::fixed_registers))]
fn special_register(name: &[u8]) -> Option<u8>
    ensures value { result ≡ named fixed_registers name.now }
    ensures in_range { IfSome result (λ n. n < 32) }
{
    match name {
        b"zero" => Some(0),
        b"ra" => Some(1),
        b"sp" => Some(2),
        b"gp" => Some(3),
        b"tp" => Some(4),
        b"fp" => Some(8),
        _ => None,
    }
}

#[tactic(auto, unfolding(crate::specs::Names::argument_registers))]
fn argument_register(name: &[u8]) -> Option<u8>
    ensures value { result ≡ named argument_registers name.now }
    ensures in_range { IfSome result (λ n. n < 32) }
{
    match name {
        b"a0" => Some(10),
        b"a1" => Some(11),
        b"a2" => Some(12),
        b"a3" => Some(13),
        b"a4" => Some(14),
        b"a5" => Some(15),
        b"a6" => Some(16),
        b"a7" => Some(17),
        _ => None,
    }
}

#[tactic(auto, unfolding(crate::specs::Names::saved_registers))]
fn saved_register(name: &[u8]) -> Option<u8>
    ensures value { result ≡ named saved_registers name.now }
    ensures in_range { IfSome result (λ n. n < 32) }
{
    match name {
        b"s0" => Some(8),
        b"s1" => Some(9),
        b"s2" => Some(18),
        b"s3" => Some(19),
        b"s4" => Some(20),
        b"s5" => Some(21),
        b"s6" => Some(22),
        b"s7" => Some(23),
        b"s8" => Some(24),
        b"s9" => Some(25),
        b"s10" => Some(26),
        b"s11" => Some(27),
        _ => None,
    }
}

#[tactic(auto, unfolding(crate::specs::Names::temporary_registers))]
fn temporary_register(name: &[u8]) -> Option<u8>
    ensures value { result ≡ named temporary_registers name.now }
    ensures in_range { IfSome result (λ n. n < 32) }
{
    match name {
        b"t0" => Some(5),
        b"t1" => Some(6),
        b"t2" => Some(7),
        b"t3" => Some(28),
        b"t4" => Some(29),
        b"t5" => Some(30),
        b"t6" => Some(31),
        _ => None,
    }
}

#[tactic(auto, unfolding(crate::specs::Names::registers_to_7))]
fn register_to_7(name: &[u8]) -> Option<u8>
    ensures value { result ≡ named registers_to_7 name.now }
    ensures in_range { IfSome result (λ n. n < 32) }
{
    match name {
        b"x0" => Some(0),
        b"x1" => Some(1),
        b"x2" => Some(2),
        b"x3" => Some(3),
        b"x4" => Some(4),
        b"x5" => Some(5),
        b"x6" => Some(6),
        b"x7" => Some(7),
        _ => None,
    }
}

#[tactic(auto, unfolding(crate::specs::Names::registers_to_15))]
fn register_to_15(name: &[u8]) -> Option<u8>
    ensures value { result ≡ named registers_to_15 name.now }
    ensures in_range { IfSome result (λ n. n < 32) }
{
    match name {
        b"x8" => Some(8),
        b"x9" => Some(9),
        b"x10" => Some(10),
        b"x11" => Some(11),
        b"x12" => Some(12),
        b"x13" => Some(13),
        b"x14" => Some(14),
        b"x15" => Some(15),
        _ => None,
    }
}

#[tactic(auto, unfolding(crate::specs::Names::registers_to_23))]
fn register_to_23(name: &[u8]) -> Option<u8>
    ensures value { result ≡ named registers_to_23 name.now }
    ensures in_range { IfSome result (λ n. n < 32) }
{
    match name {
        b"x16" => Some(16),
        b"x17" => Some(17),
        b"x18" => Some(18),
        b"x19" => Some(19),
        b"x20" => Some(20),
        b"x21" => Some(21),
        b"x22" => Some(22),
        b"x23" => Some(23),
        _ => None,
    }
}

#[tactic(auto, unfolding(crate::specs::Names::registers_to_31))]
fn register_to_31(name: &[u8]) -> Option<u8>
    ensures value { result ≡ named registers_to_31 name.now }
    ensures in_range { IfSome result (λ n. n < 32) }
{
    match name {
        b"x24" => Some(24),
        b"x25" => Some(25),
        b"x26" => Some(26),
        b"x27" => Some(27),
        b"x28" => Some(28),
        b"x29" => Some(29),
        b"x30" => Some(30),
        b"x31" => Some(31),
        _ => None,
    }
}

#[tactic(auto, using(crate::proofs::Tables::register_in_parts))]
fn register_number(name: &[u8]) -> Option<u8>
    ensures value { result ≡ register_named name.now }
    ensures in_range { IfSome result (λ n. n < 32) }
{
    if let Some(number) = special_register(name) {
        return Some(number);
    }
    if let Some(number) = argument_register(name) {
        return Some(number);
    }
    if let Some(number) = saved_register(name) {
        return Some(number);
    }
    if let Some(number) = temporary_register(name) {
        return Some(number);
    }
    if let Some(number) = register_to_7(name) {
        return Some(number);
    }
    if let Some(number) = register_to_15(name) {
        return Some(number);
    }
    if let Some(number) = register_to_23(name) {
        return Some(number);
    }
    register_to_31(name)
}

/// The register of this name.
pub fn register_named(name: &[u8]) -> Option<Register>
    ensures { result ≡ register_named name.now }
{
    Register::new(register_number(name)?)
}
