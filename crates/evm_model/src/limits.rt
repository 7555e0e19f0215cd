/// The most processors that a machine may have.
pub const PROCESSOR_LIMIT: usize = 8;

/// The most tasks that there may be; a number is never used again.
pub const TASK_LIMIT: usize = 64;

/// The most mutexes that there may be; a number is never used again.
pub const MUTEX_LIMIT: usize = 32;

/// The most semaphores that there may be; a number is never used again.
pub const SEMAPHORE_LIMIT: usize = 32;

/// The greatest count of a semaphore.
pub const SEMAPHORE_COUNT_LIMIT: u32 = 2_147_483_647;

/// The most events that there may be; a number is never used again.
pub const EVENT_LIMIT: usize = 32;

/// The most flag groups that there may be; a number is never used again.
pub const FLAGS_LIMIT: usize = 32;

/// The greatest word of a flag group.
pub const FLAGS_WORD_LIMIT: u32 = 4_294_967_295;

/// The most timers that there may be; a number is never used again.
pub const TIMER_LIMIT: usize = 32;

/// The greatest tick, and the greatest period, that a timer is set to.
pub const TIMER_SPAN_LIMIT: u64 = 9_223_372_036_854_775_807;

/// The most addresses at which breakpoints may be set.
pub const BREAKPOINT_LIMIT: usize = 64;

/// The most bytes that one Poke may write.
pub const POKE_LIMIT: usize = 64;

/// How many bytes of the console are kept, the last ones.
pub const CONSOLE_LIMIT: usize = 4_096;

/// The most events that a journal may take.
pub const CAPACITY_LIMIT: u64 = 1_048_576;

/// The least bytes that RAM may have; the most are `evm_ram::SIZE_LIMIT`.
pub const RAM_LEAST: u64 = 65_536;

/// The size of RAM is a multiple of this, in bytes.
pub const RAM_UNIT: u64 = 4_096;

/// The ticks of a task of the round-robin class before it goes behind the others of its rank.
pub const SLICE: u8 = 4;

/// The newest profile; the others are 1 and 2.
pub const PROFILE_LIMIT: u8 = 3;

/// The first profile whose tasks may migrate.
pub const MIGRATION_PROFILE: u8 = 2;

/// The first profile with all lines, and with a watchdog.
pub const WIDE_PROFILE: u8 = 3;

/// How many interrupt lines a processor has in the profiles before that.
pub const FIRST_LINES: u8 = 32;

/// The most ticks after which a watchdog demotes a task.
pub const WATCHDOG_LIMIT: u32 = 1_000_000;

/// How many bits a flag group's word has, each posted by the line of its number.
pub const FLAG_BITS: u8 = 32;

/// The greatest priority of a class.
pub const PRIORITY_LIMIT: u8 = 99;

/// The greatest sum of a task's mode bits.
pub const MODE_LIMIT: u8 = 3;

/// The most devices that a machine may have.
pub const DEVICE_LIMIT: usize = 8;

/// The address of device 0's first register.
pub const DEVICE_BASE: u64 = 0x1000_0000;

/// How far the registers of a device are from those of the next.
pub const DEVICE_SPAN: u64 = 0x1000;

/// How many registers of 8 bytes a device has.
pub const REGISTERS_PER_DEVICE: u8 = 16;

/// The line that device 0 raises; each other device raises the next.
pub const DEVICE_LINE: u8 = 2;

/// How many notices are kept, the last ones.
pub const NOTICE_LIMIT: usize = 64;
