//! Answers of calls by name.

/// The name of the errno that an answer is, with its sign: those that calls give (docs/CALLS.md).
pub fn errno_name(answer: u64) -> Option<&'static str> {
    let number = answer.wrapping_neg();
    match number {
        1 => Some("-1 EPERM"),
        3 => Some("-3 ESRCH"),
        11 => Some("-11 EAGAIN"),
        12 => Some("-12 ENOMEM"),
        16 => Some("-16 EBUSY"),
        22 => Some("-22 EINVAL"),
        35 => Some("-35 EDEADLK"),
        38 => Some("-38 ENOSYS"),
        110 => Some("-110 ETIMEDOUT"),
        _ => None,
    }
}

/// The name of a call by its number (docs/CALLS.md).
pub fn call_name(number: u64) -> Option<&'static str> {
    let name = match number {
        0 => "exit",
        1 => "putc",
        2 => "yield_now",
        3 => "spawn",
        4 => "stall in-band",
        5 => "unstall in-band",
        6 => "wait_line",
        7 => "attach",
        8 => "detach",
        9 => "new_mutex",
        10 => "new_semaphore",
        11 => "new_event",
        12 => "new_flags",
        13 => "new_timer",
        14 => "set_line",
        _ => return oob_call_name(number),
    };
    Some(name)
}

fn oob_call_name(number: u64) -> Option<&'static str> {
    let name = match number {
        32 => "switch_oob",
        33 => "switch_in_band",
        34 => "set_sched",
        35 => "set_mode",
        36 => "lock",
        37 => "try_lock",
        38 => "unlock",
        39 => "sem_get",
        40 => "sem_try_get",
        41 => "sem_put",
        42 => "event_wait",
        43 => "signal",
        44 => "broadcast",
        45 => "flags_wait",
        46 => "flags_post",
        47 => "sleep_until",
        48 => "timer_set",
        49 => "timer_wait",
        50 => "yield_oob",
        51 => "stall out-of-band",
        52 => "unstall out-of-band",
        53 => "clock",
        54 => "state_bits",
        55 => "migrate",
        _ => return None,
    };
    Some(name)
}
