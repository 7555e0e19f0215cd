ghost use Rattle.std.specs.Prelude.{◌≡◌, ◌↔◌, ◌⊎◌, ◌+◌, false, true, ◌<◌, ◌≤◌, [], ◌∷◌, ◌++◌, length, map, nat_le, vec_capacity, IfErr, IfNone, IfOk};
ghost use Rattle.evm_devs.specs.Bus.{AreIdleFrom, IsIdle, kinds_of, tick_bus, touch_bus, bus_word};
ghost use Rattle.evm_dev.specs.Attached.{Attached};
ghost use Rattle.evm_model.specs.Good.{AreDevices};

use crate::copying::CopyFrom;
use evm_dev::{Device, Kind, Op, Touch};
use evm_model::DEVICE_LIMIT;
use evm_room::{Refused, with_room};
use std::alloc::Global;
use std::marker::Model;

/// The devices of a machine, in the order in which they were attached.
#[derive(Debug, Drop)]
pub struct Devices<D: Device> {
    items: Vec<D>,
    // a tick changes none of the devices from this number on
    active: usize,
}

impl<D: Device> Model for Devices<D> {
    ghost use Rattle.std.specs.Prelude.{◌≤◌, List, length, map, vec_capacity};
    ghost use Rattle.evm_devs.specs.Bus.{AreIdleFrom};
    ghost use Rattle.evm_dev.specs.Attached.{Attached};
    ghost use Rattle.evm_model.specs.declared.limits.TheConstants.{DEVICE_LIMIT};

    ghost Value = { List Attached };

    // there is room for as many as there may be
    ghost invariant = { λ devices. (length devices.items.items ≤ DEVICE_LIMIT) × (DEVICE_LIMIT ≤ vec_capacity devices.items) × (devices.active ≤ length devices.items.items) × AreIdleFrom devices.active (map (λ device. record { kind = D.kind_of device; words = D.words_of device }) devices.items.items) };

    ghost view = { λ devices. map (λ device. record { kind = D.kind_of device; words = D.words_of device }) devices.items.items };
}

// Whether a tick neither changes a device nor raises its line.
fn is_idle<D: Device>(device: &D) -> bool
    ensures { (result ≡ true) ↔ IsIdle (record { kind = D.kind_of device.now; words = D.words_of device.now }) }
{
    match device.kind() {
        Kind::Console | Kind::Mailbox => true,
        Kind::Pins => device.words(2) == Some(0),
    }
}

// The number of active devices after a tick of device i: one less if it was the last of them and is idle.
fn active_after(active: usize, i: usize, idle: bool) -> usize
    ensures { (result ≡ active) ⊎ ((result ≡ i) × (active ≡ i + 1) × (idle ≡ true)) }
{
    if idle && active > 0 && active - 1 == i {
        i
    } else {
        active
    }
}

impl<D: Device> Devices<D> {
    /// No device, with room for as many as there may be.
    pub fn new(alloc: Global) -> Result<Devices<D>, Refused>
        ensures none { IfOk result (λ devices. devices ≡ []) }
        ensures refused { IfErr result (λ asked. asked ≡ DEVICE_LIMIT) }
    {
        Ok(Devices {
            items: with_room(alloc, DEVICE_LIMIT)?,
            active: 0,
        })
    }

    /// A number from which on no device does anything at a tick: those below it are the ones to tick.
    pub fn active(&self) -> usize
        ensures some { result ≤ length self.now }
        ensures limit { result ≤ DEVICE_LIMIT }
        ensures idle { AreIdleFrom result self.now }
    {
        self.active
    }

    /// How many devices there are.
    pub fn len(&self) -> usize
        ensures count { result ≡ length self.now }
        ensures limit { result ≤ DEVICE_LIMIT }
    {
        self.items.len()
    }

    /// Whether there is no room for a device more.
    pub fn is_full(&self) -> bool
        ensures { result ≡ nat_le DEVICE_LIMIT (length self.now) }
    {
        self.items.len() >= DEVICE_LIMIT
    }

    /// A device more, which has the next number.
    pub fn push(&mut self, device: D)
        requires { length self.old < DEVICE_LIMIT }
        ensures { self.new ≡ self.old ++ record { kind = D.kind_of device; words = D.words_of device } ∷ [] }
    {
        self.items.push_reserved(device);
        self.active = self.items.len();
    }

    /// Whether there are as many devices as others, and each is of the kind of the other with its number.
    pub fn are_like(&self, others: &Devices<D>) -> bool
        ensures same { result ≡ true → kinds_of self.now ≡ kinds_of others.now }
        ensures other { result ≡ false → kinds_of self.now ≡ kinds_of others.now → ⊥ }
    {
        are_of_kinds(&self.items, &others.items)
    }

    /// A touch of a device's register; no answer if there is no such device.
    pub fn touch(&mut self, i: usize, op: Op, register: u8, value: u64) -> Touch
        ensures done { (self.new, result) ≡ touch_bus i op register value self.old }
        ensures unanswered { IfNone result.answer (self.new ≡ self.old) }
    {
        let Some(device) = self.items.get_mut(i) else {
            return Touch::NONE;
        };
        let touch = device.touch(op, register, value);
        self.active = self.active.max(i + 1);
        touch
    }

    /// A tick of a device: whether it raises its line.
    pub fn tick(&mut self, i: usize) -> bool
        ensures { (self.new, result) ≡ tick_bus i self.old }
    {
        let Some(device) = self.items.get_mut(i) else {
            return false;
        };
        let raise = device.tick();
        self.active = active_after(self.active, i, is_idle(device));
        raise
    }

    /// A word of a device.
    pub fn word(&self, i: usize, k: usize) -> Option<u64>
        ensures { result ≡ bus_word i k self.now }
    {
        self.items.get(i)?.words(k)
    }

    /// There are no more devices than there may be, and each has words that its kind may have.
    pub fn rules(&self)
        ensures { AreDevices self.now }
    {
        for device in &self.items {
            let _kind = device.kind();
        }
    }

    /// The devices, in the order in which they were attached.
    pub fn into_vec(self) -> Vec<D>
        ensures { map (λ device. record { kind = D.kind_of device; words = D.words_of device }) result.items ≡ self }
    {
        self.items
    }
}

// Whether devices are as many as others, and each is of the kind of the other with its number.
fn are_of_kinds<D: Device>(devices: &[D], others: &[D]) -> bool
    ensures same { result ≡ true → map (λ device. D.kind_of device) devices.now ≡ map (λ device. D.kind_of device) others.now }
    ensures other { result ≡ false → map (λ device. D.kind_of device) devices.now ≡ map (λ device. D.kind_of device) others.now → ⊥ }
{
    if devices.len() != others.len() {
        return false;
    }
    for i in 0..devices.len() {
        if devices[i].kind() != others[i].kind() {
            return false;
        }
    }
    true
}

// Each device has the words of another of its kind.
fn copy_each<D: CopyFrom>(devices: &mut Vec<D>, others: &[D])
    requires { map (λ device. D.kind_of device) devices.old.items ≡ map (λ device. D.kind_of device) others.now }
    ensures seen { map {B = Attached} (λ device. record { kind = D.kind_of device; words = D.words_of device }) devices.new.items ≡ map {B = Attached} (λ device. record { kind = D.kind_of device; words = D.words_of device }) others.now }
    ensures capacity { vec_capacity devices.new ≡ vec_capacity devices.old }
{
    for i in 0..others.len() {
        if let Some(device) = devices.get_mut(i) {
            device.copy_from(&others[i]);
        }
    }
}

impl<D: CopyFrom> Devices<D> {
    /// The devices have the words of others of their kinds. Takes no memory.
    pub fn copy_from(&mut self, other: &Devices<D>)
        requires { kinds_of self.old ≡ kinds_of other.now }
        ensures { self.new ≡ other.now }
    {
        copy_each(&mut self.items, &other.items);
        self.active = other.active;
    }
}
